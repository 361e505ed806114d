// Which field of a record is wrong, and how often a variable is declared: what a refusal's sentence says beyond its numbers.
#![tactic(auto)]

ghost use Rattle.std.specs.Prelude.{◌≡◌, ◌*◌, ◌≤◌, length};
ghost use Rattle.spec_language.specs.Scopes.{decl_count};
ghost use Rattle.desk_faults.specs.Records.{function_fault, node_fault};

use records::format::{FUNCTION_MARK, MOST_PARAMETERS, MOST_VARIABLES, NODE_MARK};
use records::nodes::{b_at, kind_at};
use records::{count_of, mark_at, mask_fits, mask_of, params_of, result_of, u16_at, vars_of};

// The first field of a function's record that is wrong.
#[derive(Clone, Copy, Debug, PartialEq, Eq)]
pub enum FunctionFault {
    Missing,
    Mark,
    Result,
    Parameters,
    Variables,
    Mask,
    Zeros,
    Count,
    Right,
}

// What is wrong with a node's record: its mark, its kind, or a field that its kind has.
#[derive(Clone, Copy, Debug, PartialEq, Eq)]
pub enum NodeFault {
    Missing,
    Mark,
    Kind,
    Fields,
}

// What is wrong with the record of function f: the first of its seven tests that fails.
#[tactic(auto, using(std::proofs::lemmas::Bool::Decides::nat_tests), unfolding(crate::specs::Records::function_fault, crate::specs::Records::first_fault, spec_language::specs::Records::within))]
pub fn function_fault(file: &[u8], f: usize) -> FunctionFault
    ensures { result ≡ function_fault file.now f }
{
    let records = file.len() / 12;
    if records <= f {
        return FunctionFault::Missing;
    }
    if records <= 1 + f {
        return FunctionFault::Missing;
    }
    let p = params_of(file, f);
    let v = vars_of(file, f);
    if mark_at(file, 1 + f) != FUNCTION_MARK {
        return FunctionFault::Mark;
    }
    if result_of(file, f) > 2 {
        return FunctionFault::Result;
    }
    if p > MOST_PARAMETERS {
        return FunctionFault::Parameters;
    }
    if v < p || v > MOST_VARIABLES {
        return FunctionFault::Variables;
    }
    if !mask_fits(mask_of(file, f), p) {
        return FunctionFault::Mask;
    }
    if u16_at(file, 12 * (1 + f) + 6) != 0 {
        return FunctionFault::Zeros;
    }
    if count_of(file, f) < 1 {
        return FunctionFault::Count;
    }
    FunctionFault::Right
}

// What is wrong with the node at record k.
#[tactic(auto, using(std::proofs::lemmas::Bool::Decides::nat_tests), unfolding(crate::specs::Records::node_fault))]
pub fn node_fault(file: &[u8], k: usize) -> NodeFault
    ensures { result ≡ node_fault file.now k }
{
    if file.len() / 12 <= k {
        return NodeFault::Missing;
    }
    if mark_at(file, k) != NODE_MARK {
        return NodeFault::Mark;
    }
    if 16 <= kind_at(file, k) {
        return NodeFault::Kind;
    }
    NodeFault::Fields
}

// How many of the first n nodes of a part declare variable x.
pub fn declarations(part: &[u8], n: usize, x: u32) -> usize
    requires { 12 * n ≤ length part.now }
    ensures { result ≡ decl_count part.now n x }
{
    (0..n)
        .filter(|i| (kind_at(part, *i) == 9) & (b_at(part, *i) == x))
        .count()
}
