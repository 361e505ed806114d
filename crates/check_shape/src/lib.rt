// Questions 4, 7 and 8: function records, node records and sizes.
#![tactic(auto)]

ghost use Rattle.std.specs.Prelude.{◌≡◌, not, ◌&&◌, ◌+◌, ◌*◌, ◌≤◌, ◌<◌, eqb, ltb, length};
ghost use Rattle.records.specs.Fields.{functions, params_of, size_at};
ghost use Rattle.records.specs.Search.{first_of};
ghost use Rattle.records.specs.Children.{children};
ghost use Rattle.spec_language.specs.Records.{function_ok};
ghost use Rattle.spec_language.specs.Nodes.{fields_ok, node_ok, total, size_ok};

use records::format::{FUNCTION_MARK, MOST_PARAMETERS, MOST_VARIABLES, NODE_MARK, OPERATORS};
use records::nodes::{a_at, b_at, children_of, kind_at, size_at};
use records::{
    Found, count_of, function_count, mark_at, mask_fits, mask_of, params_of, result_of, u16_at,
    vars_of, wide,
};

// Whether the record of function f is right.
#[tactic(auto, unfolding(spec_language::specs::Records::function_ok, spec_language::specs::Records::within))]
fn function_ok(file: &[u8], f: usize) -> bool
    requires { 12 * (1 + f) + 12 ≤ length file.now }
    ensures { result ≡ function_ok file.now f }
{
    let mark = mark_at(file, 1 + f);
    let result = result_of(file, f);
    let p = params_of(file, f);
    let v = vars_of(file, f);
    let zeros = u16_at(file, 12 * (1 + f) + 6);
    let count = count_of(file, f);
    let fits = mask_fits(mask_of(file, f), p);
    (mark == FUNCTION_MARK)
        & ((result <= 2)
            & ((p <= MOST_PARAMETERS)
                & (((p <= v) & (v <= MOST_VARIABLES)) & (fits & ((zeros == 0) & (1 <= count))))))
}

// The lowest function whose record is not right.
pub fn first_function(file: &[u8], count: usize) -> Option<Found>
    requires { 12 * (1 + count) ≤ length file.now }
    ensures { result ≡ first_of (λ f. not (function_ok file.now f)) count }
{
    records::first_of(count, |f| !function_ok(file, f))
}

// Whether b is a function that takes a arguments.
fn call_ok(file: &[u8], a: u8, b: u32) -> bool
    requires { 12 * (1 + functions file.now) ≤ length file.now }
    ensures { result ≡ ltb b (functions file.now) && eqb a (params_of file.now b) }
{
    let callee = b as usize;
    if callee < function_count(file) {
        a == params_of(file, callee)
    } else {
        false
    }
}

// Whether a node of function f may have these fields; by kind.
#[tactic(auto, unfolding(spec_language::specs::Nodes::fields_ok, spec_language::specs::Nodes::fields))]
fn fields_ok(file: &[u8], f: usize, kind: u8, a: u8, b: u32) -> bool
    requires { (12 * (1 + functions file.now) ≤ length file.now) × (f < functions file.now) }
    ensures { result ≡ fields_ok file.now f kind a b }
{
    let p = wide(params_of(file, f));
    let v = wide(vars_of(file, f));
    match kind {
        0 => a == 0,
        1 => (a == 0) & (b < 2),
        2 => (a == 0) & (b < v),
        3 => (a < OPERATORS) & (b == 0),
        4 => (a == 0) & (b == 0),
        5 => call_ok(file, a, b),
        8 => (a == 0) & (b < v),
        9 => ((a == 1) | (a == 2)) & ((p <= b) & (b < v)),
        6..=15 => (a == 0) & (b == 0),
        _ => false,
    }
}

// Whether the mark and the fields of node i of function f's part are right.
#[tactic(auto, unfolding(spec_language::specs::Nodes::node_ok))]
pub fn node_ok(file: &[u8], f: usize, part: &[u8], i: usize) -> bool
    requires heads { (12 * (1 + functions file.now) ≤ length file.now) × (f < functions file.now) }
    requires inside { 12 * i + 12 ≤ length part.now }
    ensures { result ≡ node_ok file.now f part.now i }
{
    let right = fields_ok(file, f, kind_at(part, i), a_at(part, i), b_at(part, i));
    (mark_at(part, i) == NODE_MARK) & right
}

// The sizes of the children of node i together.
fn total_size(part: &[u8], i: usize) -> usize
    requires { 12 * i + 12 ≤ length part.now }
    ensures { (result ≡ total (size_at part.now) (children part.now i)) × (result < 1099511627776) }
{
    let mut sum = 0;
    for (_, child) in children_of(part, i) {
        sum += size_at(part, child);
    }
    sum
}

// Whether the size of node i of a part of n nodes is right.
#[tactic(auto, unfolding(spec_language::specs::Nodes::size_ok))]
pub fn size_ok(part: &[u8], n: usize, i: usize) -> bool
    requires { (12 * n ≤ length part.now) × (i < n) }
    ensures { result ≡ size_ok part.now n i }
{
    let size = size_at(part, i);
    let sum = total_size(part, i);
    (size == 1 + sum) & ((sum <= i) & (!(1 + i == n) | (size == n)))
}

// The lowest node of function f's part, of n nodes, whose mark or fields are not right.
pub fn first_wrong_node(file: &[u8], f: usize, part: &[u8], n: usize) -> Option<Found>
    requires heads { (12 * (1 + functions file.now) ≤ length file.now) × (f < functions file.now) }
    requires inside { 12 * n ≤ length part.now }
    ensures { result ≡ first_of (λ i. not (node_ok file.now f part.now i)) n }
{
    records::first_of(n, |i| !node_ok(file, f, part, i))
}

// The lowest node of a part of n nodes whose size is not right.
pub fn first_wrong_size(part: &[u8], n: usize) -> Option<Found>
    requires { 12 * n ≤ length part.now }
    ensures { result ≡ first_of (λ i. not (size_ok part.now n i)) n }
{
    records::first_of(n, |i| !size_ok(part, n, i))
}
