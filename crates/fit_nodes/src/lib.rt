// A function's part of an accepted file, and facts of one node of it: its sort and its type.
#![tactic(auto)]

ghost use Rattle.std.specs.Prelude.{◌≡◌, true, ◌&&◌, ◌<◌, eqb, ltb};
ghost use Rattle.records.specs.Fields.{vars_of, kind_at};
ghost use Rattle.spec_language.specs.KindLists.{is_constant, is_statement};
ghost use Rattle.check_scopes.specs.Counts.{Decls};
ghost use Rattle.spec_machine.specs.Program.{type_of_var, type_n};
ghost use Rattle.spec_machine.specs.Fit.{is_const};
ghost use Rattle.spec_machine.specs.File.{program_of};
ghost use Rattle.spec_machine.specs.Test.{expr_in, stmt_in};
ghost use Rattle.state_words.specs.Meaning.{ref_is};
ghost use Rattle.fit_nodes.specs.Part.{IsPart};

use records::format::VARIABLE_ENTRIES;
use records::nodes::kind_at;
use state_words::Ref;

// Whether a kind is a statement's, but for nop's, which no reference names by its node; by kind.
fn is_statement_kind(kind: u8) -> bool
    ensures { result ≡ is_statement kind }
{
    match kind {
        7..=14 => true,
        _ => false,
    }
}

// Whether a kind is a constant's; by kind.
fn is_constant_kind(kind: u8) -> bool
    ensures { result ≡ is_constant kind }
{
    match kind {
        0..=1 => true,
        15 => true,
        _ => false,
    }
}

// The part of a function of an accepted file: the file, the function, and the part's bytes with the number of its nodes.
#[derive(Clone, Copy)]
pub struct Part<'a> {
    pub file: &'a [u8],
    pub function: usize,
    pub bytes: &'a [u8],
    pub nodes: usize,
    pub ghost known: { IsPart file.now function bytes.now nodes },
}

impl Part<'_> {
    // Whether node i is one of the part's, and of such a kind.
    fn is_statement_node(&self, i: u32) -> bool
        ensures { result ≡ ltb i self.now.nodes && is_statement (kind_at self.now.bytes.now i) }
    {
        let at = i as usize;
        if self.nodes <= at {
            return false;
        }
        is_statement_kind(kind_at(self.bytes, at))
    }

    // Whether node w is one of the part's, and a while.
    fn is_while(&self, w: u32) -> bool
        ensures { result ≡ ltb w self.now.nodes && eqb (kind_at self.now.bytes.now w) 11 }
    {
        let at = w as usize;
        if self.nodes <= at {
            return false;
        }
        kind_at(self.bytes, at) == 11
    }

    // The decl of each variable.
    pub fn decls(&self) -> [usize; VARIABLE_ENTRIES]
        ensures { Decls self.now.bytes.now self.now.nodes result }
    {
        check_scopes::decl_table(self.bytes, self.nodes)
    }

    // The type of variable x.
    pub fn variable_type(&self, decls: &[usize; VARIABLE_ENTRIES], x: u32) -> u8
        requires { Decls self.now.bytes.now self.now.nodes decls.now × (x < vars_of self.now.file.now self.now.function) }
        ensures { result ≡ type_of_var ((program_of self.now.file.now).fun self.now.function) x }
    {
        check_types::var_type(self.file, self.function, self.bytes, self.nodes, decls, x)
    }

    // Whether node i is an expression.
    pub fn is_expression(&self, i: u32) -> bool
        ensures { result ≡ expr_in (program_of self.now.file.now) self.now.function i }
    {
        let at = i as usize;
        if at < self.nodes {
            check_sorts::is_expression(kind_at(self.bytes, at))
        } else {
            false
        }
    }

    // Whether the expression at node i is a constant.
    pub fn is_constant(&self, i: u32) -> bool
        requires { expr_in (program_of self.now.file.now) self.now.function i ≡ true }
        ensures { result ≡ is_const ((program_of self.now.file.now).look self.now.function i) }
    {
        is_constant_kind(kind_at(self.bytes, i as usize))
    }

    // The type of the expression at node i.
    pub fn expression_type(&self, decls: &[usize; VARIABLE_ENTRIES], i: u32) -> u8
        requires { Decls self.now.bytes.now self.now.nodes decls.now × (expr_in (program_of self.now.file.now) self.now.function i ≡ true) }
        ensures { result ≡ type_n (program_of self.now.file.now) self.now.function i }
    {
        let at = i as usize;
        check_types::type_of(self.file, self.function, self.bytes, self.nodes, decls, at)
    }

    // Whether a reference names a statement.
    pub fn is_statement(&self, r: Ref) -> bool
        ensures { result ≡ stmt_in (program_of self.now.file.now) self.now.function (ref_is r) }
    {
        match r {
            Ref::Nop => true,
            Ref::Node(i) => self.is_statement_node(i),
            Ref::IfOf(w) => self.is_while(w),
            Ref::SeqOf(w) => self.is_while(w),
        }
    }
}
