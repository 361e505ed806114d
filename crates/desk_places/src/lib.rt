// Where a refusal's place lies in a procedure file.
#![tactic(auto)]

ghost use Rattle.std.specs.Prelude.{◌≡◌, ◌+◌, ◌*◌, ◌≤◌, ◌<◌, length};
ghost use Rattle.records.specs.Fields.{functions as Fields·functions};
ghost use Rattle.records.specs.Parts.{start_of};
ghost use Rattle.desk_places.specs.Located.{holder, node_in, place_of};
ghost use Rattle.desk_places.specs.Extents.{first_record, node_count};

use records::nodes::kind_at;
use records::{count_of, function_count};

// A record by what it is: the header, a function's own, a node of a function with its kind, or no record of the file.
#[derive(Clone, Copy)]
pub enum Place {
    Header,
    Function {
        function: usize,
    },
    Node {
        function: usize,
        node: usize,
        kind: u8,
    },
    Outside,
}

// Where a record past those of the functions lies.
fn locate_node(file: &[u8], place: usize, functions: usize) -> Place
    requires counted { (functions ≡ Fields·functions file.now) × (functions < 65536) }
    requires inside { (functions < place) × (12 * place + 12 ≤ length file.now) }
    ensures { result ≡ node_in file.now place (holder file.now place) }
{
    let mut start = 1 + functions;
    for f in 0..functions {
        let end = start + count_of(file, f);
        if place < end {
            return Place::Node {
                function: f,
                node: place - start,
                kind: kind_at(file, place),
            };
        }
        start = end;
    }
    Place::Outside
}

// Where a record of a file lies, for every number and every file.
#[tactic(auto, using(std::proofs::lemmas::Bool::Decides::nat_tests), unfolding(crate::specs::Located::place_of))]
pub fn locate(file: &[u8], place: usize) -> Place
    ensures { result ≡ place_of file.now place }
{
    if place == 0 {
        return Place::Header;
    }
    if file.len() / 12 <= place {
        return Place::Outside;
    }
    let functions = function_count(file);
    if place <= functions {
        return Place::Function {
            function: place - 1,
        };
    }
    locate_node(file, place, functions)
}

// The record that a function's part starts at.
fn start_of(file: &[u8], function: usize, functions: usize) -> usize
    requires counted { (functions ≡ Fields·functions file.now) × (functions < 65536) }
    requires inside { (function < functions) × (12 * (1 + functions) ≤ length file.now) }
    ensures { (result ≡ start_of file.now function) × (result < 562949953421312) }
{
    let mut start = 1 + functions;
    for f in 0..function {
        start += count_of(file, f);
    }
    start
}

// The first record of a function's part, and how many nodes it has. Where there is no part it is empty: a caller takes no record then.
#[derive(Clone, Copy)]
pub struct Extent {
    pub start: usize,
    pub count: usize,
}

// Where the part of a function lies, with no node where it does not lie in the file.
pub fn part_extent(file: &[u8], function: usize) -> Extent
    ensures exact { (result.start ≡ first_record file.now function) × (result.count ≡ node_count file.now function) }
    ensures inside { 12 * (result.start + result.count) ≤ length file.now }
{
    let none = Extent { start: 0, count: 0 };
    let records = file.len() / 12;
    if records == 0 {
        return none;
    }
    let functions = function_count(file);
    if functions <= function {
        return none;
    }
    if records <= functions {
        return none;
    }
    let start = start_of(file, function, functions);
    let count = count_of(file, function);
    if records < start + count {
        return none;
    }
    Extent { start, count }
}
