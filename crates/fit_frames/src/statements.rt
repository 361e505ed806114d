// Frames that a statement leaves: one that waits, an assignment, the branches of an if, and a return.
ghost use Rattle.std.specs.Prelude.{◌≡◌, true, Some, ◌+◌, ◌*◌, ◌≤◌, length};
ghost use Rattle.spec_machine.specs.Machine.{Frame, wait, branch};
ghost use Rattle.spec_machine.specs.File.{program_of};
ghost use Rattle.spec_machine.specs.Test.{stmt_in};
ghost use Rattle.spec_image.specs.Decode.{ref_of};
ghost use Rattle.state_words.specs.Meaning.{ref_is};
ghost use Rattle.fit_frames.specs.Meaning.{Steps};

use crate::{Received, bare};
use fit_flow::KnownPart;
use records::format::TYPE_BOOL;
use records::{result_of, vars_of, wide};
use state_words::{Ref, ref_of};
use varset::VarSet;

// A waiting statement, by its reference's word.
pub fn wait_step(known: &KnownPart<'_>, x: u32, d: Received) -> Option<Received>
    ensures { Steps (program_of known.now.part.file.now) known.now.part.function d (wait (ref_of x)) result }
{
    if d.given.is_some() {
        return None;
    }
    let r = ref_of(x);
    if !known.part.is_statement(r) {
        return None;
    }
    let flowed = known.through(r, d.set);
    if !flowed.ok {
        return None;
    }
    let come = d.come | known.returning(r);
    Some(bare(flowed.left, come))
}

// An assignment to variable x.
pub fn store_step(known: &KnownPart<'_>, x: u32, d: Received) -> Option<Received>
    ensures { Steps (program_of known.now.part.file.now) known.now.part.function d (Frame.store x) result }
{
    let kind = d.given?;
    if wide(vars_of(known.part.file, known.part.function)) <= x {
        return None;
    }
    if kind != known.part.variable_type(known.decls, x) {
        return None;
    }
    Some(bare(d.set.insert(x), d.come))
}

// The two branches of an if, by their references' words.
pub fn branch_step(known: &KnownPart<'_>, x: u32, y: u32, d: Received) -> Option<Received>
    ensures { Steps (program_of known.now.part.file.now) known.now.part.function d (branch (ref_of x) (ref_of y)) result }
{
    if d.given? != TYPE_BOOL {
        return None;
    }
    let r = ref_of(x);
    let q = ref_of(y);
    if !known.part.is_statement(r) {
        return None;
    }
    if !known.part.is_statement(q) {
        return None;
    }
    branches(known, r, q, d)
}

// Two branches that are statements.
fn branches(known: &KnownPart<'_>, r: Ref, q: Ref, d: Received) -> Option<Received>
    requires statements { (stmt_in (program_of known.now.part.file.now) known.now.part.function (ref_is r) ≡ true) × (stmt_in (program_of known.now.part.file.now) known.now.part.function (ref_is q) ≡ true) }
    requires given { d.given ≡ Some 2 }
    ensures { Steps (program_of known.now.part.file.now) known.now.part.function d (branch (ref_is r) (ref_is q)) result }
{
    let flowed = known.through(r, d.set);
    let other = known.through(q, d.set);
    if !(flowed.ok & other.ok) {
        return None;
    }
    let ends = known.returning(r);
    let come = d.come | (ends & known.returning(q));
    Some(bare(flowed.left.meet(other.left), come))
}

// A return's value, which counts as giving every variable a value.
#[tactic(auto, unfolding(spec_machine::specs::File::program_of, spec_machine::specs::File::fun_of))]
pub fn leave_step(file: &[u8], f: usize, d: Received) -> Option<Received>
    requires { 12 * (1 + f) + 12 ≤ length file.now }
    ensures { Steps (program_of file.now) f d Frame.leave result }
{
    if d.given? != result_of(file, f) {
        return None;
    }
    let all = d.set.union(VarSet::full());
    Some(bare(all, true))
}
