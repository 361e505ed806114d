// What a statement does to any set of variables with values, from what its parts do.
ghost use Rattle.std.specs.Prelude.{◌≡◌, true, false, List, ◌↔◌, ◌<◌};
ghost use Rattle.records.specs.Format.{most_variables};
ghost use Rattle.varset.specs.Sets.{has, none};
ghost use Rattle.spec_language.specs.Statements.{Read, Statement, Seq, Decl, If, While};
ghost use Rattle.check_summary.specs.Summary.{Needs};
ghost use Rattle.check_summary.specs.Rows.{Sums};

use varset::VarSet;

// Whether the statement passes from no set, whether it returns, and the variables that it needs, adds, drops and declares.
#[derive(Clone, Copy)]
pub struct Row {
    pub fails: bool,
    pub returned: bool,
    pub needs: VarSet,
    pub adds: VarSet,
    pub drops: VarSet,
    pub declared: VarSet,
}

// Whether one of two fails, or they do not go together.
fn fails_with(first: bool, second: bool, together: bool) -> bool
    ensures { result ≡ false ↔ ((first ≡ false) × (second ≡ false) × (together ≡ true)) }
{
    first | second | !together
}

// A statement without parts, that needs and adds these variables.
pub fn plain(needs: VarSet, adds: VarSet, returned: bool) -> Row
    ensures kept { (result.fails ≡ false) × (result.returned ≡ returned) × (result.needs ≡ needs) × (result.adds ≡ adds) }
    ensures empty { (has result.drops.0 ≡ none) × (has result.declared.0 ≡ none) }
{
    Row {
        fails: false,
        returned,
        needs,
        adds,
        drops: VarSet::empty(),
        declared: VarSet::empty(),
    }
}

// One statement after another.
pub fn in_sequence(first: Row, second: Row) -> Row
    ensures { (s u : Statement) → Sums s first → Sums u second → Sums (Seq s u) result }
{
    let late = second.needs.minus(first.adds);
    let together = late.meet(first.drops).is_empty();
    Row {
        fails: fails_with(first.fails, second.fails, together),
        returned: first.returned | second.returned,
        needs: first.needs.union(late),
        adds: first.adds.minus(second.drops).union(second.adds),
        drops: first.drops.union(second.drops),
        declared: first.declared.union(second.declared),
    }
}

// Two branches after a condition that reads these variables.
pub fn in_branches(condition: VarSet, first: Row, second: Row) -> Row
    ensures { (e : List Read) (s u : Statement) → Needs e condition.0 → Sums s first → Sums u second → Sums (If e s u) result }
{
    let gone = first.drops.minus(first.adds);
    let lost = second.drops.minus(second.adds);
    Row {
        fails: fails_with(first.fails, second.fails, true),
        returned: first.returned & second.returned,
        needs: condition.union(first.needs.union(second.needs)),
        adds: first.adds.meet(second.adds),
        drops: gone.union(lost),
        declared: first.declared.union(second.declared),
    }
}

// A loop's body after its condition, which reads these variables.
pub fn in_loop(condition: VarSet, body: Row) -> Row
    ensures { (e : List Read) (s : Statement) → Needs e condition.0 → Sums s body → Sums (While e s) result }
{
    Row {
        fails: body.fails,
        returned: false,
        needs: condition.union(body.needs),
        adds: VarSet::empty(),
        drops: body.declared,
        declared: body.declared,
    }
}

// A statement in the scope of x.
pub fn in_scope(inner: Row, x: u32) -> Row
    requires { x < most_variables }
    ensures { (s : Statement) → Sums s inner → Sums (Decl x s) result }
{
    Row {
        fails: fails_with(inner.fails, inner.needs.contains(x), true),
        returned: inner.returned,
        needs: inner.needs,
        adds: inner.adds.remove(x),
        drops: inner.drops.insert(x),
        declared: inner.declared.insert(x),
    }
}
