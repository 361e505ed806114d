// The reason of a refusal as a sentence, for people.
#![tactic(auto)]

mod faults;
mod header;
mod ways;

ghost use Rattle.std.specs.Prelude.{◌≤◌};
ghost use Rattle.texts.specs.Room.{EndsInside, Lent};

use desk_places::Place;
use records::nodes::{a_at, b_at};
use texts::Text;
use texts::kinds::put_kind;

// How often a function declares a variable.
fn declared(file: &[u8], function: usize, x: u32) -> usize {
    let extent = desk_places::part_extent(file, function);
    let start = extent.start;
    let count = extent.count;
    let a = 12 * start;
    let e = 12 * (start + count);
    desk_faults::declarations(&file[a..e], count, x)
}

// Puts how often a variable of a function is declared.
fn put_undeclared(file: &[u8], function: usize, x: u32, out: &mut Text<'_>)
    ensures lent { Lent out.old.bytes out.new.bytes }
    ensures last { EndsInside out.new.bytes.now out.new.used }
{
    out.put_numbered(b", variable ", x as u64);
    let count = declared(file, function, x);
    if count == 0 {
        return out.put(b" is declared nowhere");
    }
    out.put_numbered(b" is declared ", count as u64);
    out.put(b" times");
}

// Puts the function at a place and what is wrong with it.
fn put_function(file: &[u8], question: u8, place: usize, item: u32, out: &mut Text<'_>)
    ensures lent { Lent out.old.bytes out.new.bytes }
    ensures last { EndsInside out.new.bytes.now out.new.used }
{
    let Place::Function { function } = desk_places::locate(file, place) else {
        return out.put(b"no function stands at this place");
    };
    out.put_numbered(b"function ", function as u64);
    match question {
        4 => faults::put_record(desk_faults::function_fault(file, function), out),
        10 => put_undeclared(file, function, item, out),
        _ => out.put(b" can come to its end without a return"),
    }
}

// Puts the function, the record and what the node is: `function 0, record 8 (variable 0)`.
fn put_named(file: &[u8], place: usize, function: usize, kind: u8, out: &mut Text<'_>)
    ensures lent { Lent out.old.bytes out.new.bytes }
    ensures last { EndsInside out.new.bytes.now out.new.used }
{
    out.put_numbered(b"function ", function as u64);
    out.put_numbered(b", record ", place as u64);
    if place < file.len() / 12 {
        out.put(b" (");
        put_kind(kind, a_at(file, place), b_at(file, place), out);
        out.put(b")");
    }
}

// Puts what is wrong with a node by the question that it fails.
fn put_fault(file: &[u8], question: u8, place: usize, function: usize, kind: u8, out: &mut Text<'_>)
    ensures lent { Lent out.old.bytes out.new.bytes }
    ensures last { EndsInside out.old.bytes.now out.old.used → EndsInside out.new.bytes.now out.new.used }
{
    match question {
        7 => faults::put_fields(desk_faults::node_fault(file, place), kind, out),
        8 => faults::put_size(file, place, function, out),
        9 => faults::put_sort(kind, out),
        12 => faults::put_type(kind, out),
        13 => ways::put_way(file, place, function, out),
        _ => out.put(b" stands outside the decl of its variable"),
    }
}

// Puts the node at a place and what is wrong with it.
fn put_node(file: &[u8], question: u8, place: usize, out: &mut Text<'_>)
    ensures lent { Lent out.old.bytes out.new.bytes }
    ensures last { EndsInside out.new.bytes.now out.new.used }
{
    let Place::Node {
        function,
        node: _,
        kind,
    } = desk_places::locate(file, place)
    else {
        return out.put(b"no node stands at this place");
    };
    put_named(file, place, function, kind, out);
    put_fault(file, question, place, function, kind, out);
}

// Puts the sentence for a question that a file fails at a place, with the item; there is none for a number that is no question.
pub fn put_sentence(file: &[u8], question: u8, place: usize, item: u32, out: &mut Text<'_>)
    ensures lent { Lent out.old.bytes out.new.bytes }
    ensures last { 1 ≤ question → question ≤ 14 → EndsInside out.new.bytes.now out.new.used }
{
    match question {
        1 => header::put_length(file, out),
        2 => header::put_header(file, out),
        3 => header::put_counts(file, out),
        4 | 10 | 14 => put_function(file, question, place, item, out),
        5 => out.put(b"the node counts of the functions do not sum to the header's"),
        6 => out.put(b"function 0, which is main, has to take nothing and to give an int"),
        7..=13 => put_node(file, question, place, out),
        _ => {}
    }
}
