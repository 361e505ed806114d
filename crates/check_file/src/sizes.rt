// The working arrays of the check by the file's size, each in a function of its own: a short file costs little stack and time.
//
// The compiler puts the arrays of a function that it inlines into the caller's frame, so those with large arrays are never inlined. They also
// call themselves k times; k is 0 for every file of up to 65,535 bytes, and none longer than 50,700 comes here.
ghost use Rattle.std.specs.Prelude.{◌≡◌, ◌⊎◌, ◌+◌, ◌*◌, ◌≤◌, ◌<◌, length};
ghost use Rattle.records.specs.Format.{most_nodes};
ghost use Rattle.records.specs.Parts.{Laid};
ghost use Rattle.check_file.specs.Answers.{Small};
ghost use Rattle.check_file.specs.Stages.{FloorIs, PartsWithin, TableRoom, AnswersTo, AtFlows};

use crate::Refusal;
use check_rest::lower;
use records::format::{
    MIDDLE_NODES, MOST_NODES, RECORD, SHORT_NODES, TINY_NODES, TOO_LONG, TYPE_UNSET,
};
use records::{count_of, function_count};

// The greater of two questions.
pub fn greater(a: u8, b: u8) -> u8
    ensures { (a ≤ result) × (b ≤ result) × (b ≤ a → result ≡ a) × (a ≤ b → result ≡ b) }
{
    if a < b { b } else { a }
}

// The least question from 7 on that may fail in some part, by one pass over the nodes of each; 15 where none does.
fn parts_floor(file: &[u8], codes: &mut [u8], reads: &mut [u64], sets: &mut [u64]) -> u8
    requires laid { Laid file.now }
    requires room { PartsWithin file.now (length codes.old) × PartsWithin file.now (length reads.old) × PartsWithin file.now (length sets.old) }
    ensures { FloorIs file.now result }
{
    let functions = function_count(file);
    let mut least = 15;
    let mut start = 1 + functions;
    for f in 0..functions {
        let n = count_of(file, f);
        let a = 12 * start;
        let e = 12 * (start + n);
        let own = check_pass::part_floor(file, f, &file[a..e], n, codes, reads, sets);
        if own == 7 {
            return 7;
        }
        least = lower(own, least);
        start += n;
    }
    least
}

// The same with room for N nodes a part.
fn floor_within<const N: usize>(file: &[u8]) -> u8
    requires { Laid file.now × PartsWithin file.now N × (N ≤ most_nodes) }
    ensures { FloorIs file.now result }
{
    let mut types = [TYPE_UNSET; N];
    let mut reads = [0u64; N];
    let mut sets = [0u64; N];
    parts_floor(file, &mut types, &mut reads, &mut sets)
}

// The same with the arrays in a frame of its own.
#[inline(never)]
fn floor_apart<const N: usize>(file: &[u8], k: usize) -> u8
    requires { Laid file.now × PartsWithin file.now N × (N ≤ most_nodes) }
    ensures { FloorIs file.now result }
{
    let own = floor_within::<N>(file);
    if 0 < k {
        return lower(own, floor_apart::<N>(file, k - 1));
    }
    own
}

// The least question from 7 on that may fail; 15 where none does.
pub fn file_floor(file: &[u8]) -> u8
    requires { Laid file.now }
    ensures { FloorIs file.now result }
{
    let functions = function_count(file);
    if file.len() <= RECORD * (1 + functions + TINY_NODES) {
        return floor_within::<TINY_NODES>(file);
    }
    let k = file.len() / TOO_LONG;
    if file.len() <= RECORD * (1 + functions + SHORT_NODES) {
        return floor_apart::<SHORT_NODES>(file, k);
    }
    if file.len() <= RECORD * (1 + functions + MIDDLE_NODES) {
        return floor_apart::<MIDDLE_NODES>(file, k);
    }
    floor_apart::<MOST_NODES>(file, k)
}

// The words of a table for the summaries of a short part.
const SHORT_TABLE: usize = 5 * SHORT_NODES;

// Of a middling part.
const MIDDLE_TABLE: usize = 5 * MIDDLE_NODES;

// Of any part.
const LONG_TABLE: usize = 5 * MOST_NODES;

// Questions 13 and 14, from q on, with a table of N words in a frame of its own.
#[inline(never)]
fn flows_apart<const N: usize>(file: &[u8], q: u8, k: usize) -> Result<(), Refusal>
    requires { AtFlows file.now q × TableRoom file.now N × (N ≤ 5 * most_nodes) }
    ensures { AnswersTo file.now 15 result × Small result }
{
    let own = crate::ask(file, q, 15, &mut [0u64; N]);
    if 0 < k {
        return flows_apart::<N>(file, q, k - 1).and(own);
    }
    own
}

// Questions 13 and 14, from q on, where all before pass.
pub fn check_flows(file: &[u8], q: u8) -> Result<(), Refusal>
    requires { AtFlows file.now q }
    ensures { AnswersTo file.now 15 result × Small result }
{
    let functions = function_count(file);
    let k = file.len() / TOO_LONG;
    if file.len() <= RECORD * (1 + functions + SHORT_NODES) {
        return flows_apart::<SHORT_TABLE>(file, q, k);
    }
    if file.len() <= RECORD * (1 + functions + MIDDLE_NODES) {
        return flows_apart::<MIDDLE_TABLE>(file, q, k);
    }
    flows_apart::<LONG_TABLE>(file, q, k)
}
