// Question 9: expressions stand where expressions are wanted, statements where statements are.
#![tactic(auto)]

ghost use Rattle.std.specs.Prelude.{◌≡◌, ◌+◌, ◌*◌, ◌≤◌, ◌<◌, min, length};
ghost use Rattle.varset.specs.Lowest.{pick, lowest};
ghost use Rattle.records.specs.Fields.{kind_at};
ghost use Rattle.records.specs.Search.{first_of};
ghost use Rattle.records.specs.Children.{children};
ghost use Rattle.spec_language.specs.Sorts.{is_expression, wants_expression, wrong_sort};
ghost use Rattle.spec_language.specs.Nodes.{wrong_child, misplaced};

use records::Found;
use records::nodes::{children_of, kind_at};

// Whether a kind is an expression; by kind.
#[tactic(auto, unfolding(spec_language::specs::Sorts::is_expression))]
pub fn is_expression(kind: u8) -> bool
    ensures { result ≡ is_expression kind }
{
    match kind {
        0..=5 => true,
        15 => true,
        _ => false,
    }
}

// Whether child k of a node of that kind is to be an expression; by kind.
#[tactic(auto, unfolding(spec_language::specs::Sorts::wants_expression))]
fn wants_expression(kind: u8, k: usize) -> bool
    ensures { result ≡ wants_expression kind k }
{
    match kind {
        7 => false,
        9 => false,
        10 => k == 0,
        11 => k == 0,
        _ => true,
    }
}

// Whether a node of kind `child` is of the other sort than child k of a node of that kind is to be.
#[tactic(auto, unfolding(spec_language::specs::Sorts::wrong_sort, spec_language::specs::Sorts::differ))]
fn wrong_sort(kind: u8, k: usize, child: u8) -> bool
    ensures { result ≡ wrong_sort kind k child }
{
    let wanted = wants_expression(kind, k);
    if is_expression(child) {
        !wanted
    } else {
        wanted
    }
}

// The lower of two numbers, where the second counts only if it is wrong.
#[tactic(auto, unfolding(varset::specs::Lowest::pick))]
fn lower(low: usize, c: usize, wrong: bool) -> usize
    ensures { result ≡ pick wrong (min low c) low }
{
    if wrong {
        if c < low { c } else { low }
    } else {
        low
    }
}

// The lower of `best` and the lowest child of node q that is of the wrong sort.
//
// A number in place of an Option: its contract is an equation with the definition `lowest`, which says n for none.
pub fn lowest_wrong(part: &[u8], n: usize, q: usize, best: usize) -> usize
    requires { (12 * n ≤ length part.now) × (q < n) × (best ≤ n) }
    ensures { result ≡ min best (lowest (wrong_child part.now (kind_at part.now q) (children part.now q)) n) }
{
    let kind = kind_at(part, q);
    let mut low = best;
    for (k, child) in children_of(part, q) {
        low = lower(low, child, wrong_sort(kind, k, kind_at(part, child)));
    }
    low
}

// The lowest node of a part of n nodes that is of the other sort than its position wants.
pub fn first_misplaced(part: &[u8], n: usize) -> Option<Found>
    requires { (12 * n ≤ length part.now) × (1 ≤ n) }
    ensures { result ≡ first_of (misplaced part.now n) n }
{
    let body = n - 1;
    let mut low = lower(n, body, is_expression(kind_at(part, body)));
    for q in 0..n {
        low = lowest_wrong(part, n, q, low);
    }
    if low < n {
        Some(Found {
            place: low,
            item: 0,
        })
    } else {
        None
    }
}
