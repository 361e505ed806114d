// What a statement that waits leaves: which variables hold a value after it, and whether it returns; and what an expression reads.
#![tactic(auto)]

ghost use Rattle.std.specs.Prelude.{◌≡◌, true, ◌<◌};
ghost use Rattle.varset.specs.Sets.{has};
ghost use Rattle.records.specs.Fields.{kind_at};
ghost use Rattle.check_scopes.specs.Counts.{Decls};
ghost use Rattle.spec_language.specs.Statements.{statement_at};
ghost use Rattle.spec_language.specs.Flow.{leaves, returns};
ghost use Rattle.spec_machine.specs.File.{unrolled, looped, program_of};
ghost use Rattle.spec_machine.specs.Test.{expr_in, stmt_in, reads, ok};
ghost use Rattle.state_words.specs.Meaning.{ref_is};
ghost use Rattle.check_summary.specs.Tables.{TableSays};
ghost use Rattle.check_summary.specs.Flowed.{FlowedIs};

use check_summary::{Flowed, is_within, needs_at, row_at, row_through};
use fit_nodes::Part;
use records::format::VARIABLE_ENTRIES;
use records::nodes::prior;
use state_words::Ref;
use varset::VarSet;

// A part with what is known of it: the decl of each variable, and a table with a row for each node.
#[derive(Clone, Copy)]
pub struct KnownPart<'a> {
    pub part: Part<'a>,
    pub decls: &'a [usize; VARIABLE_ENTRIES],
    pub table: &'a [u64],
    pub ghost declared: { Decls part.bytes.now part.nodes decls.now },
    pub ghost summed: { TableSays part.bytes.now part.nodes table.now },
}

impl KnownPart<'_> {
    // How values flow through the seq of the while at node w: its body, then the while.
    fn seq_through(&self, w: usize, set: VarSet) -> Flowed
        requires { (w < self.now.part.nodes) × (kind_at self.now.part.bytes.now w ≡ 11) }
        ensures { FlowedIs (looped (statement_at self.now.part.bytes.now w)) (has set.0) result }
    {
        let body = row_through(self.table, w - 1, set);
        let again = row_through(self.table, w, body.left);
        Flowed {
            ok: body.ok & again.ok,
            left: again.left,
        }
    }

    // How values flow through the if of the while at node w: its condition, then the seq or nothing.
    fn if_through(&self, w: usize, set: VarSet) -> Flowed
        requires { (w < self.now.part.nodes) × (kind_at self.now.part.bytes.now w ≡ 11) }
        ensures { FlowedIs (unrolled (statement_at self.now.part.bytes.now w)) (has set.0) result }
    {
        let held = is_within(needs_at(self.table, prior(self.part.bytes, w - 1)), set);
        let entered = self.seq_through(w, set);
        Flowed {
            ok: held & entered.ok,
            left: entered.left.meet(set),
        }
    }

    // How values flow through a statement, begun with the set.
    pub fn through(&self, r: Ref, set: VarSet) -> Flowed
        requires { stmt_in (program_of self.now.part.file.now) self.now.part.function (ref_is r) ≡ true }
        ensures { (result.ok ≡ ok (program_of self.now.part.file.now) self.now.part.function (ref_is r) (has set.0)) × (has result.left.0 ≡ leaves ((program_of self.now.part.file.now).stmt self.now.part.function (ref_is r)) (has set.0)) }
    {
        match r {
            Ref::Nop => Flowed {
                ok: true,
                left: set,
            },
            Ref::Node(i) => row_through(self.table, i as usize, set),
            Ref::IfOf(w) => self.if_through(w as usize, set),
            Ref::SeqOf(w) => self.seq_through(w as usize, set),
        }
    }

    // Whether a statement returns.
    pub fn returning(&self, r: Ref) -> bool
        requires { stmt_in (program_of self.now.part.file.now) self.now.part.function (ref_is r) ≡ true }
        ensures { result ≡ returns ((program_of self.now.part.file.now).stmt self.now.part.function (ref_is r)) }
    {
        match r {
            Ref::Nop => false,
            Ref::Node(i) => row_at(self.table, i as usize).returned,
            Ref::IfOf(_) => false,
            Ref::SeqOf(w) => row_at(self.table, w as usize - 1).returned,
        }
    }

    // Whether every variable that the expression at node i reads is in the set.
    pub fn reads_held(&self, i: u32, set: VarSet) -> bool
        requires { expr_in (program_of self.now.part.file.now) self.now.part.function i ≡ true }
        ensures { result ≡ reads (program_of self.now.part.file.now) self.now.part.function i (has set.0) }
    {
        is_within(needs_at(self.table, i as usize), set)
    }
}
