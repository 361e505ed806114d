// On which way a variable has no value where it is read: the branch or the loop that a refusal by question 13 names.
#![tactic(auto)]

mod flow;
mod known;

ghost use Rattle.std.specs.Prelude.{◌≡◌, ◌+◌, ◌*◌, ◌≤◌, ◌<◌, length};
ghost use Rattle.records.specs.Format.{most_variables};
ghost use Rattle.varset.specs.Lowest.{pick};
ghost use Rattle.spec_language.specs.Nodes.{some};
ghost use Rattle.spec_language.specs.Scopes.{decl_of};
ghost use Rattle.desk_ways.specs.Ways.{KnownRead, named_node, in_tree, apart, on_way, gives, uneven, gap_at, or_earlier, last_gap, way_to};

use crate::flow::flow_from;
use crate::known::{KnownPart, known_part};
use check_scopes::is_under;
use records::nodes::{b_at, kind_at, prior};
use varset::VarSet;

// How a read is reached without a value: by the branch of an if that gives none, past a while that makes no turn, or with nothing before it that gives one.
#[derive(Clone, Copy)]
pub enum Way {
    Straight,
    First { node: usize },
    Second { node: usize },
    Loop { node: usize },
    Unknown,
}

// The node that a way names, 0 where it names none: the number is added to a record's, and its contract bounds it by the read.
pub fn named_node(way: Way) -> usize
    ensures { result ≡ named_node way }
{
    match way {
        Way::First { node } | Way::Second { node } | Way::Loop { node } => node,
        Way::Straight | Way::Unknown => 0,
    }
}

// Whether node j is node d or lies in its subtree.
fn in_tree(part: &[u8], d: usize, j: usize) -> bool
    requires { (12 * d + 12 ≤ length part.now) × (12 * j + 12 ≤ length part.now) }
    ensures { result ≡ in_tree part.now d j }
{
    (j == d) | is_under(part, d, j)
}

// Whether node j is an if with node k in its first branch and node i in its second.
fn is_apart(part: &[u8], k: usize, i: usize, j: usize) -> bool
    requires { (12 * k + 12 ≤ length part.now) × (12 * i + 12 ≤ length part.now) × (12 * j + 12 ≤ length part.now) }
    ensures { result ≡ apart part.now k i j }
{
    if kind_at(part, j) != 10 {
        return false;
    }
    let second = j.saturating_sub(1);
    in_tree(part, prior(part, second), k) & in_tree(part, second, i)
}

// Whether an if of the part has node k in its first branch and node i in its second.
fn some_apart(part: KnownPart, k: usize, i: usize) -> bool
    requires { (k < part.n) × (i < part.n) }
    ensures { result ≡ some (apart part.entry.bytes.now k i) part.entry.n }
{
    (0..part.n).any(|j| is_apart(part.bytes, k, i, j))
}

// Whether the statement at node s gives x a value on each way through it.
#[tactic(auto, unfolding(crate::specs::Ways::gives))]
fn gives_value(part: KnownPart, x: u32, s: usize) -> bool
    requires { (s < part.n) × (x < most_variables) }
    ensures { result ≡ gives part.entry.bytes.now x s }
{
    flow_from(part, s, VarSet::empty()).left.contains(x)
}

// The branch of the if at a node that gives no value where the other does.
#[tactic(auto, unfolding(crate::specs::Ways::uneven))]
fn uneven_branch(first: bool, second: bool, node: usize) -> Way
    ensures { result ≡ uneven first second node }
{
    match (first, second) {
        (true, false) => Way::Second { node },
        (false, true) => Way::First { node },
        _ => Way::Straight,
    }
}

// The way past node k that gives x no value where another gives one; by kind.
fn gap_at(part: KnownPart, x: u32, k: usize) -> Way
    requires { (k < part.n) × (x < most_variables) }
    ensures { result ≡ gap_at part.entry.bytes.now x k }
{
    let kind = kind_at(part.bytes, k);
    let body = k.saturating_sub(1);
    match kind {
        10 => {
            let first = gives_value(part, x, prior(part.bytes, body));
            uneven_branch(first, gives_value(part, x, body), k)
        }
        11 => {
            if gives_value(part, x, body) {
                Way::Loop { node: k }
            } else {
                Way::Straight
            }
        }
        _ => Way::Straight,
    }
}

// The first of two ways where it names a node, else the second.
#[tactic(auto, unfolding(crate::specs::Ways::or_earlier))]
fn or_earlier(late: Way, early: Way) -> Way
    ensures { result ≡ or_earlier late early }
{
    match late {
        Way::Straight => early,
        _ => late,
    }
}

// The way past node k that gives x, whose decl is at d, no value, where k stands on the way to node i.
fn gap_on_way(part: KnownPart, x: u32, d: usize, i: usize, k: usize) -> Way
    requires inside { (k < part.n) × (i < part.n) × (x < most_variables) }
    requires told { (d ≡ decl_of part.bytes.now part.n x) × (12 * d + 12 ≤ length part.bytes.now) }
    ensures { result ≡ pick (on_way part.entry.bytes.now part.entry.n x i k) (gap_at part.entry.bytes.now x k) Way.Straight }
{
    if !is_under(part.bytes, d, k) {
        return Way::Straight;
    }
    if some_apart(part, k, i) {
        return Way::Straight;
    }
    gap_at(part, x, k)
}

// The last way before node i that gives x no value.
fn last_gap(part: KnownPart, x: u32, i: usize) -> Way
    requires { (i < part.n) × (x < most_variables) }
    ensures { result ≡ last_gap part.entry.bytes.now part.entry.n x i i }
{
    let decls = check_scopes::decl_table(part.bytes, part.n);
    let d = decls[x as usize];
    let mut way = Way::Straight;
    for k in 0..i {
        way = or_earlier(gap_on_way(part, x, d, i, k), way);
    }
    way
}

// The way on which node i of n nodes reads its variable without a value, for nodes that the questions up to 8 accept.
pub fn way_to(part: &[u8], n: usize, i: usize) -> Way
    requires { 12 * n ≤ length part.now }
    ensures told { KnownRead part.now n i → result ≡ way_to part.now n i }
    ensures silent { (KnownRead part.now n i → ⊥) → result ≡ Way.Unknown }
    ensures below { named_node result ≤ i }
{
    if n <= i {
        return Way::Unknown;
    }
    if kind_at(part, i) != 2 {
        return Way::Unknown;
    }
    match known_part(part, n) {
        Some(known) => last_gap(known, b_at(part, i), i),
        None => Way::Unknown,
    }
}
