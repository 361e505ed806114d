// The variables that have a value after a statement begun with a set of them.
ghost use Rattle.std.specs.Prelude.{◌≡◌, List, ◌<◌};
ghost use Rattle.records.specs.Format.{most_variables};
ghost use Rattle.varset.specs.Sets.{Set, has, none, without};
ghost use Rattle.spec_language.specs.Statements.{Read, Statement, Seq, Decl, If, While, statement_at};
ghost use Rattle.spec_language.specs.Flow.{leaves};
ghost use Rattle.desk_ways.specs.Follows.{Follows};

use crate::known::KnownPart;
use records::nodes::{b_at, kind_at, prior};
use varset::VarSet;

// The variables that have a value after a statement, and those that it declares.
#[derive(Clone, Copy)]
pub struct Flow {
    pub left: VarSet,
    pub declared: VarSet,
}

// A statement that declares nothing.
fn plain(left: VarSet) -> Flow
    ensures { (result.left ≡ left) × (has result.declared.0 ≡ none) }
{
    Flow {
        left,
        declared: VarSet::empty(),
    }
}

// One statement after another.
#[tactic(auto, unfolding(spec_language::specs::Flow::declares, spec_language::specs::Flow::leaves))]
fn in_sequence(first: Flow, second: Flow) -> Flow
    ensures { (s t : Statement) (d : Set) → Follows s d first → Follows t (leaves s d) second → Follows (Seq s t) d result }
{
    Flow {
        left: second.left,
        declared: first.declared.union(second.declared),
    }
}

// A statement in the scope of x.
#[tactic(auto, unfolding(spec_language::specs::Flow::declares, spec_language::specs::Flow::leaves))]
fn in_scope(inner: Flow, x: u32) -> Flow
    requires { x < most_variables }
    ensures { (s : Statement) (d : Set) → Follows s (without d x) inner → Follows (Decl x s) d result }
{
    Flow {
        left: inner.left.remove(x),
        declared: inner.declared.insert(x),
    }
}

// Two branches.
#[tactic(auto, unfolding(spec_language::specs::Flow::declares, spec_language::specs::Flow::leaves))]
fn in_branches(first: Flow, second: Flow) -> Flow
    ensures { (e : List Read) (s t : Statement) (d : Set) → Follows s d first → Follows t d second → Follows (If e s t) d result }
{
    Flow {
        left: first.left.meet(second.left),
        declared: first.declared.union(second.declared),
    }
}

// A loop's body, begun with the set.
#[tactic(auto, unfolding(spec_language::specs::Flow::declares, spec_language::specs::Flow::leaves))]
fn in_loop(body: Flow, set: VarSet) -> Flow
    ensures { (e : List Read) (s : Statement) → Follows s (has set.0) body → Follows (While e s) (has set.0) result }
{
    Flow {
        left: set.minus(body.declared),
        declared: body.declared,
    }
}

// What the statement at node i leaves, begun with the set; by kind.
#[tactic(auto, using(spec_language::proofs::KnownNodes::inner, spec_language::proofs::KnownNodes::named), unfolding(spec_language::specs::Known::names_variable, spec_language::specs::Scopes::uses_variable))]
pub fn flow_from(part: KnownPart, i: usize, set: VarSet) -> Flow
    requires { i < part.n }
    ensures { Follows (statement_at part.entry.bytes.now i) (has set.0) result }
{
    let kind = kind_at(part.bytes, i);
    match kind {
        7 => {
            let b = i - 1;
            let first = flow_from(part, prior(part.bytes, b), set);
            in_sequence(first, flow_from(part, b, first.left))
        }
        8 => plain(set.insert(b_at(part.bytes, i))),
        9 => {
            let x = b_at(part.bytes, i);
            in_scope(flow_from(part, i - 1, set.remove(x)), x)
        }
        10 => {
            let b = i - 1;
            let first = flow_from(part, prior(part.bytes, b), set);
            in_branches(first, flow_from(part, b, set))
        }
        11 => in_loop(flow_from(part, i - 1, set), set),
        12 => plain(set.union(VarSet::full())),
        _ => plain(set),
    }
}
