// What a statement reads and sets, from what its parts do: questions 13 and 14 without a walk over the whole body.
#![tactic(auto)]

ghost use Rattle.std.specs.Prelude.{◌≡◌, true, List, ◌⊎◌, ◌+◌, ◌*◌, ◌≤◌, ◌<◌, eqb, length};
ghost use Rattle.spec_language.specs.Types.{unset};
ghost use Rattle.records.specs.Format.{most_variables};
ghost use Rattle.varset.specs.Lowest.{pick};
ghost use Rattle.varset.specs.Sets.{Set, has, none, below, Sub};
ghost use Rattle.records.specs.Fields.{kind_at, b_at};
ghost use Rattle.spec_language.specs.Statements.{Statement, Seq, Decl, If, While, Read};
ghost use Rattle.check_effects.specs.Effects.{return_code, Covers, Means};

use records::format::TYPE_UNSET;
use records::nodes::{b_at, kind_at};
use varset::{EMPTY, VarSet};

// The code of a statement; the code of an expression, which is its type, is below it.
pub const STATEMENT: u8 = 16;

// The code of a statement that returns.
pub const RETURN: u8 = 17;

// A statement's code, or 255 where it fails; the variables that it may read before it
// sets them, and those that it sets on every way through.
#[derive(Clone, Copy)]
pub struct Effect {
    pub code: u8,
    pub reads: VarSet,
    pub sets: VarSet,
}

// What is not known to pass.
pub const FAILING: Effect = Effect {
    code: TYPE_UNSET,
    reads: EMPTY,
    sets: EMPTY,
};

// The set with the variable of node i where the node is a decl.
pub fn with_decl(part: &[u8], i: usize, set: VarSet) -> VarSet
    requires { (12 * i + 12 ≤ length part.now) × (kind_at part.now i ≡ 9 → b_at part.now i < most_variables) }
    ensures grown { Sub (has set.0) (has result.0) }
    ensures own { kind_at part.now i ≡ 9 → has result.0 (b_at part.now i) ≡ true }
{
    if kind_at(part, i) == 9 {
        set.insert(b_at(part, i))
    } else {
        set
    }
}

// A code, or the code of a failure.
fn code_if(passes: bool, code: u8) -> u8
    ensures { result < unset → (passes ≡ true) × (result ≡ code) }
{
    if passes { code } else { TYPE_UNSET }
}

// The code of one statement after another.
fn code_either(a: u8, b: u8) -> u8
    ensures { result ≡ return_code → (a ≡ return_code) ⊎ (b ≡ return_code) }
{
    if a == RETURN { RETURN } else { b }
}

// The code of two branches.
fn code_both(a: u8, b: u8) -> u8
    ensures { result ≡ return_code → (a ≡ return_code) × (b ≡ return_code) }
{
    if a == RETURN { b } else { STATEMENT }
}

// One statement after another, where these variables are declared up to there.
pub fn in_sequence(first: Effect, second: Effect, declared: VarSet) -> Effect
    ensures { (s u : Statement) → Means s (has declared.0) first → Means u (has declared.0) second → result.code < unset → Means (Seq s u) (has declared.0) result }
{
    let code = code_either(first.code, second.code);
    Effect {
        code: code_if(second.reads.meet(declared).is_empty(), code),
        reads: first.reads.union(second.reads.minus(first.sets)),
        sets: first.sets.minus(declared).union(second.sets),
    }
}

// A statement in the scope of x, which is one of the variables declared up to there.
pub fn in_scope(inner: Effect, x: u32) -> Effect
    requires { x < most_variables }
    ensures { (s : Statement) (d : Set) → d x ≡ true → Means s d inner → result.code < unset → Means (Decl x s) d result }
{
    Effect {
        code: code_if(!inner.reads.contains(x), inner.code),
        reads: inner.reads,
        sets: inner.sets.remove(x),
    }
}

// Two branches after a condition that reads these variables.
pub fn in_branches(condition: VarSet, first: Effect, second: Effect) -> Effect
    ensures { (e : List Read) (s u : Statement) (d : Set) → Covers e (has condition.0) → Means s d first → Means u d second → Means (If e s u) d result }
{
    Effect {
        code: code_both(first.code, second.code),
        reads: condition.union(first.reads.union(second.reads)),
        sets: first.sets.meet(second.sets),
    }
}

// A loop's body after its condition, which reads these variables.
pub fn in_loop(condition: VarSet, body: Effect) -> Effect
    ensures { (e : List Read) (s : Statement) (d : Set) → Covers e (has condition.0) → Means s d body → Means (While e s) d result }
{
    Effect {
        code: STATEMENT,
        reads: condition.union(body.reads),
        sets: VarSet::empty(),
    }
}

// A statement without parts.
pub fn plain(code: u8, reads: VarSet, sets: VarSet) -> Effect
    ensures { result ≡ record { code = code; reads = reads; sets = sets } }
{
    Effect { code, reads, sets }
}

// A return, an assert or an expression as statement, by its code: a return counts as giving every variable a value.
pub fn of_expression(code: u8, reads: VarSet) -> Effect
    ensures { (result.code ≡ code) × (result.reads ≡ reads) × (has result.sets.0 ≡ pick (eqb code return_code) (below most_variables) none) }
{
    let all = VarSet::full();
    let none = VarSet::empty();
    if code == RETURN {
        return plain(code, reads, all);
    }
    plain(code, reads, none)
}
