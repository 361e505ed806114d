// Questions 2, 3, 5 and 6: the header, the number of records, the part counts and main; and 1 for files that are not long.
#![tactic(auto)]

ghost use Rattle.std.specs.Prelude.{◌≡◌, true, false, ◌+◌, ◌*◌, ◌≤◌, ◌<◌, eqb, length};
ghost use Rattle.records.specs.Format.{most_functions};
ghost use Rattle.records.specs.Fields.{nodes};
ghost use Rattle.records.specs.Parts.{sum_of};
ghost use Rattle.spec_language.specs.Records.{length_ok, header_ok, records_ok, main_ok};

use records::format::{HEADER_MARK, LAST_EDITION, MOST_FUNCTIONS, MOST_NODES, TOO_LONG};
use records::{count_of, function_count, mark_at, node_count, params_of, result_of, u32_at};

// Whether a file of fewer than 65,536 bytes is not of whole records, or of fewer than three; of a longer one it is not said.
pub fn is_cut(file: &[u8]) -> bool
    ensures { result ≡ true → length_ok file.now ≡ false }
{
    let len = file.len();
    if TOO_LONG <= len {
        return false;
    }
    let short = len as u32;
    (short % 12 != 0) | (short < 36)
}

// Whether the header is right.
#[tactic(auto, using(spec_language::proofs::Editions::ending_is), unfolding(spec_language::specs::Records::header_ok, spec_language::specs::Records::within))]
pub fn header_ok(file: &[u8]) -> bool
    requires { 12 ≤ length file.now }
    ensures { result ≡ header_ok file.now }
{
    let functions = function_count(file);
    let nodes = node_count(file);
    let ending = u32_at(file, 8);
    (mark_at(file, 0) == HEADER_MARK)
        & (((1 <= functions) & (functions <= MOST_FUNCTIONS))
            & (((1 <= nodes) & (nodes <= MOST_NODES)) & (ending <= LAST_EDITION)))
}

// Whether the file has as many records as its header says.
#[tactic(auto, unfolding(spec_language::specs::Records::records_ok))]
pub fn records_ok(file: &[u8]) -> bool
    requires { 12 ≤ length file.now }
    ensures { result ≡ records_ok file.now }
{
    let functions = function_count(file);
    let nodes = node_count(file);
    file.len() == 12 * (1 + functions + nodes)
}

// Whether the part counts of the functions sum to the node count.
#[tactic(auto, unfolding(records::specs::Parts::sum_of))]
pub fn sum_ok(file: &[u8], functions: usize) -> bool
    requires { (12 * (1 + functions) ≤ length file.now) × (functions ≤ most_functions) }
    ensures { result ≡ eqb (sum_of file.now functions) (nodes file.now) }
{
    let mut sum = 0;
    for f in 0..functions {
        sum += count_of(file, f);
    }
    sum == node_count(file)
}

// Whether function 0 takes nothing and gives an int.
#[tactic(auto, unfolding(spec_language::specs::Records::main_ok))]
pub fn main_ok(file: &[u8]) -> bool
    requires { 24 ≤ length file.now }
    ensures { result ≡ main_ok file.now }
{
    (params_of(file, 0) == 0) & (result_of(file, 0) == 1)
}
