// Questions 13 and 14: every variable read has a value by then, and every body returns; by the summaries of a part's statements.
#![tactic(auto)]

ghost use Rattle.std.specs.Prelude.{◌≡◌, not, ◌&&◌, List, ℕ, ◌+◌, ◌*◌, ◌-◌, ◌≤◌, ◌<◌, eqb, length};
ghost use Rattle.records.specs.Format.{most_parameters, most_variables};
ghost use Rattle.varset.specs.Lowest.{pick};
ghost use Rattle.varset.specs.Sets.{has, below};
ghost use Rattle.records.specs.Fields.{params_of, kind_at, b_at};
ghost use Rattle.records.specs.Search.{At, or_else, unless};
ghost use Rattle.spec_language.specs.Statements.{statement_at, reads_of};
ghost use Rattle.spec_language.specs.Flow.{missing, lacks, returns};
ghost use Rattle.spec_language.specs.Known.{Known, WellFormed};
ghost use Rattle.check_summary.specs.Tables.{TableSays};
ghost use Rattle.check_flow.specs.Descents.{lack_of, Below};

use check_summary::{fill, row_at, row_through};
use records::nodes::{b_at, kind_at, prior, size_at};
use records::{Found, minus, params_of, wide};
use varset::VarSet;

// Where the first empty read of a statement is sought: the search is over, or goes on in a statement inside it, begun with the set.
#[derive(Clone, Copy)]
enum Descent {
    Over(Option<Found>),
    Into { node: usize, set: VarSet },
}

// Whether node i reads a variable that is not in the set.
fn reads_empty(part: &[u8], set: VarSet, i: usize) -> bool
    requires { (12 * i + 12 ≤ length part.now) × (kind_at part.now i ≡ 2 → b_at part.now i < most_variables) }
    ensures { result ≡ eqb (kind_at part.now i) 2 && not (has set.0 (b_at part.now i)) }
{
    kind_at(part, i) == 2 && !set.contains(b_at(part, i))
}

// The first read of the expression at node e of a variable that is not in the set.
fn first_missing(part: &[u8], n: usize, e: usize, set: VarSet) -> Option<Found>
    requires inside { (12 * n ≤ length part.now) × (e < n) }
    requires known { Known part.now n }
    ensures { result ≡ missing (reads_of part.now e) (has set.0) }
{
    let first = minus(e + 1, size_at(part, e));
    for i in first..=e {
        if reads_empty(part, set, i) {
            return Some(Found { place: i, item: 0 });
        }
    }
    None
}

// Into the first of two statements unless it passes, else into the second.
fn into_either(passes: bool, first: usize, set: VarSet, second: usize, after: VarSet) -> Descent
    ensures finds { (t : List ℕ) → lack_of t result ≡ pick passes (lacks (statement_at t second) (has after.0)) (lacks (statement_at t first) (has set.0)) }
    ensures falls { (i : ℕ) → first < i → second < i → Below i result }
{
    if passes {
        Descent::Into {
            node: second,
            set: after,
        }
    } else {
        Descent::Into { node: first, set }
    }
}

// After a condition: its own empty read, or else what comes after it.
#[tactic(auto, unfolding(records::specs::Search::or_else))]
fn after_condition(lacking: Option<Found>, rest: Descent) -> Descent
    ensures finds { (t : List ℕ) → lack_of t result ≡ or_else lacking (lack_of t rest) }
    ensures falls { (i : ℕ) → Below i rest → Below i result }
{
    match lacking {
        Some(found) => Descent::Over(Some(found)),
        None => rest,
    }
}

// One level of the search, at the statement at node i, begun with the set; by kind.
#[tactic(auto, using(check_summary::proofs::Filling::after_child))]
fn descend(part: &[u8], n: usize, table: &[u64], i: usize, set: VarSet) -> Descent
    requires { WellFormed part.now n × TableSays part.now n table.now × (i < n) }
    ensures finds { lack_of part.now result ≡ lacks (statement_at part.now i) (has set.0) }
    ensures falls { Below i result }
{
    let kind = kind_at(part, i);
    match kind {
        7 => {
            let b = i - 1;
            let a = prior(part, b);
            let first = row_through(table, a, set);
            into_either(first.ok, a, set, b, first.left)
        }
        8 => Descent::Over(first_missing(part, n, i - 1, set)),
        9 => {
            let inside = set.remove(b_at(part, i));
            Descent::Into {
                node: i - 1,
                set: inside,
            }
        }
        10 => {
            let b = i - 1;
            let a = prior(part, b);
            let lacking = first_missing(part, n, prior(part, a), set);
            let first = row_through(table, a, set);
            after_condition(lacking, into_either(first.ok, a, set, b, set))
        }
        11 => {
            let b = i - 1;
            let lacking = first_missing(part, n, prior(part, b), set);
            after_condition(lacking, Descent::Into { node: b, set })
        }
        12..=14 => Descent::Over(first_missing(part, n, i - 1, set)),
        _ => Descent::Over(None),
    }
}

// The first empty read of a part's body, begun with the set.
fn first_empty(part: &[u8], n: usize, table: &[u64], begun: VarSet) -> Option<Found>
    requires { WellFormed part.now n × TableSays part.now n table.now × (1 ≤ n) }
    ensures { result ≡ lacks (statement_at part.now (n - 1)) (has begun.0) }
{
    let mut i = n - 1;
    let mut set = begun;
    loop {
        match descend(part, n, table, i, set) {
            Descent::Over(found) => return found,
            Descent::Into { node, set: inside } => {
                i = node;
                set = inside;
            }
        }
    }
}

// The first node of function f's part, of n nodes, that reads a variable without a value; the table is room for its summaries.
pub fn first_lacking(
    file: &[u8],
    f: usize,
    part: &[u8],
    n: usize,
    table: &mut [u64],
) -> Option<Found>
    requires laid { (12 * (1 + f) + 12 ≤ length file.now) × (params_of file.now f ≤ most_parameters) }
    requires part { WellFormed part.now n × (1 ≤ n) × (5 * n ≤ length table.old) }
    ensures exact { result ≡ lacks (statement_at part.now (n - 1)) (below (params_of file.now f)) }
    ensures within { (i x : ℕ) → result ≡ At i x → i < n }
{
    fill(part, n, table);
    first_empty(part, n, table, VarSet::below(wide(params_of(file, f))))
}

// Nothing where the body of a part of n nodes returns, else the function; the table is room for its summaries.
pub fn not_returning(part: &[u8], n: usize, table: &mut [u64]) -> Option<Found>
    requires { WellFormed part.now n × (1 ≤ n) × (5 * n ≤ length table.old) }
    ensures { result ≡ unless (returns (statement_at part.now (n - 1))) 0 }
{
    fill(part, n, table);
    if row_at(table, n - 1).returned {
        None
    } else {
        Some(Found { place: 0, item: 0 })
    }
}
