// What is wrong with the record of a function or of a node, as the end of a sentence.
ghost use Rattle.texts.specs.Room.{EndsInside, Lent};

use desk_faults::{FunctionFault, NodeFault};
use records::nodes::size_at;
use texts::Text;

// Puts what is wrong with a function's record.
pub(crate) fn put_record(fault: FunctionFault, out: &mut Text<'_>)
    ensures lent { Lent out.old.bytes out.new.bytes }
    ensures last { EndsInside out.new.bytes.now out.new.used }
{
    match fault {
        FunctionFault::Missing => out.put(b" has no record"),
        FunctionFault::Mark => out.put(b" has a record that does not begin with FN"),
        FunctionFault::Result => out.put(b" has a result type that is not nothing, int or bool"),
        FunctionFault::Parameters => out.put(b" has more than 8 parameters"),
        FunctionFault::Variables => {
            out.put(b" has fewer variables than parameters, or more than 64");
        }
        FunctionFault::Mask => {
            out.put(b" has a bool parameter in its mask that it does not have");
        }
        FunctionFault::Zeros => out.put(b" has bytes after its mask that are not zero"),
        FunctionFault::Count => out.put(b" has no nodes"),
        FunctionFault::Right => out.put(b" has a record that is right"),
    }
}

// Puts which field of a node of a kind is wrong; by kind.
fn put_field(kind: u8, out: &mut Text<'_>)
    ensures lent { Lent out.old.bytes out.new.bytes }
    ensures last { EndsInside out.old.bytes.now out.old.used → EndsInside out.new.bytes.now out.new.used }
{
    match kind {
        0 | 4 | 6 | 7 | 10..=15 => out.put(b" has a field that is not 0"),
        1 => out.put(b" has a value that is not 0 or 1"),
        2 | 8 => out.put(b" names a variable that this function does not have"),
        3 => out.put(b" names none of the 16 operators"),
        5 => {
            out.put(
                b" calls a function that this file does not have, or with another number of arguments than it takes",
            );
        }
        9 => {
            out.put(
                b" declares a parameter or a variable that this function does not have, or a type that is not int or bool",
            );
        }
        _ => {}
    }
}

// Puts what is wrong with a node's fields.
pub(crate) fn put_fields(fault: NodeFault, kind: u8, out: &mut Text<'_>)
    ensures lent { Lent out.old.bytes out.new.bytes }
    ensures last { EndsInside out.old.bytes.now out.old.used → EndsInside out.new.bytes.now out.new.used }
{
    match fault {
        NodeFault::Missing => out.put(b" is not in the file"),
        NodeFault::Mark => out.put(b" does not begin with ND"),
        NodeFault::Kind => out.put(b" is of a kind that C0 does not have"),
        NodeFault::Fields => put_field(kind, out),
    }
}

// Puts how a node's size is wrong.
pub(crate) fn put_size(file: &[u8], place: usize, function: usize, out: &mut Text<'_>)
    ensures lent { Lent out.old.bytes out.new.bytes }
    ensures last { EndsInside out.new.bytes.now out.new.used }
{
    if file.len() / 12 <= place {
        return out.put(b" is not in the file");
    }
    let size = size_at(file, place);
    out.put_numbered(b" has the size ", size as u64);
    let extent = desk_places::part_extent(file, function);
    let count = extent.count;
    if (place + 1 == extent.start + count) & (size != count) {
        out.put_numbered(b", and is the last node of a function of ", count as u64);
        return out.put(b" nodes, which it has to span");
    }
    out.put(b", which does not fit the nodes before it");
}

// Puts which sort of node stands where the other one has to; by kind.
pub(crate) fn put_sort(kind: u8, out: &mut Text<'_>)
    ensures lent { Lent out.old.bytes out.new.bytes }
    ensures last { EndsInside out.new.bytes.now out.new.used }
{
    match kind {
        6..=14 => out.put(b" is a statement where an expression has to stand"),
        _ => out.put(b" is an expression where a statement has to stand"),
    }
}

// Puts which type is wrong at a node; nodes of other kinds take what is under them whatever its type is, and have a space here; by kind.
pub(crate) fn put_type(kind: u8, out: &mut Text<'_>)
    ensures lent { Lent out.old.bytes out.new.bytes }
    ensures last { EndsInside out.old.bytes.now out.old.used → EndsInside out.new.bytes.now out.new.used }
{
    match kind {
        3 => out.put(b" takes two ints and is given something else"),
        4 => out.put(b" takes two bools and is given something else"),
        5 => out.put(b" is given an argument of another type than the parameter has"),
        8 => out.put(b" gives the variable a value of another type than it has"),
        10 | 11 => out.put(b" has a condition that is not a bool"),
        12 => out.put(b" returns a value of another type than the function gives"),
        13 => out.put(b" asserts something that is not a bool"),
        1 | 2 | 6 | 7 | 9 | 14 | 15 => out.put(b" "),
        _ => {}
    }
}
