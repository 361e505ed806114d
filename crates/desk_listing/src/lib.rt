// A function of a file as indented text near C0's own, with record numbers at the left and one record marked.
//
// A node is written by a template for its kind, which has the letters of `lines` and these: S and T write the next child as a
// statement, T one level deeper; E writes it as an expression, A writes all children so, and X the node itself.
#![tactic(auto)]

pub mod lines;
pub mod worklist;

ghost use Rattle.std.specs.Prelude.{◌<◌, ◌≤◌};
ghost use Rattle.texts.specs.Room.{Ends, Lent};

use crate::lines::{Subject, child_of, deeper, put_margin, put_piece, put_signature};
use crate::worklist::{Pending, Stack};
use desk_places::Place;
use records::nodes::{arity_at, kind_at};
use texts::Text;

// More steps than any function takes: each takes a letter of a template.
const MOST_STEPS: u32 = 1000000;

// How a node of a kind is written as a statement; by kind.
fn statement(kind: u8) -> &'static [u8] {
    match kind {
        6 => b"Lnop:",
        7 => b"SS",
        8 => b"LV = E:",
        9 => b"M{NDY V:TM}N",
        10 => b"Lif (E) {NTM} else {NTM}N",
        11 => b"Lwhile (E) {NTM}N",
        12 => b"Lreturn E:",
        13 => b"Lassert(E):",
        14 => b"LE:",
        0..=5 | 15 => b"LXN",
        _ => b"",
    }
}

// How a node of a kind is written as an expression; by kind.
fn expression(kind: u8) -> &'static [u8] {
    match kind {
        0 => b"I",
        1 => b"B",
        2 => b"V",
        3 => b"(E O E)",
        4 => b"(E && E)",
        5 => b"F(A)",
        6 => b"nop",
        7 => b"seq(A)",
        8 => b"assign(V, A)",
        9 => b"decl(V, Y, A)",
        10 => b"if(A)",
        11 => b"while(A)",
        12 => b"return(A)",
        13 => b"assert(A)",
        14 => b"expr(A)",
        15 => b"nothing",
        _ => b"",
    }
}

// The letter or the sign that comes next in the template of a frame's node, and none at its end.
fn next_letter(subject: Subject<'_>, frame: Pending) -> Option<u8>
    requires { frame.node < subject.nodes }
{
    let kind = kind_at(subject.part, frame.node);
    let template = if frame.expression {
        expression(kind)
    } else {
        statement(kind)
    };
    template.get(frame.place).copied()
}

// Begins to write a node, as an expression or as a statement.
fn enter(
    subject: Subject<'_>,
    node: usize,
    expression: bool,
    depth: usize,
    stack: &mut Stack,
    out: &mut Text<'_>,
)
    ensures lent { Lent out.old.bytes out.new.bytes }
{
    stack.push(Pending {
        node,
        expression,
        place: 0,
        child: 0,
        depth,
    });
    if expression & (node == subject.marked) {
        out.put(b">>");
    }
}

// Goes on with the next child, as an expression or as a statement.
fn enter_child(
    subject: Subject<'_>,
    frame: Pending,
    expression: bool,
    depth: usize,
    stack: &mut Stack,
    out: &mut Text<'_>,
)
    requires { frame.node < subject.nodes }
    ensures lent { Lent out.old.bytes out.new.bytes }
{
    let child = child_of(subject, frame.node, frame.child);
    stack.advance(frame, frame.child.wrapping_add(1));
    enter(subject, child, expression, depth, stack, out);
}

// Goes on with the next of the children that are written between commas, or past them.
fn enter_argument(subject: Subject<'_>, frame: Pending, stack: &mut Stack, out: &mut Text<'_>)
    requires { frame.node < subject.nodes }
    ensures lent { Lent out.old.bytes out.new.bytes }
{
    if arity_at(subject.part, frame.node) <= frame.child {
        return stack.advance(frame, frame.child);
    }
    let child = child_of(subject, frame.node, frame.child);
    stack.push(Pending {
        child: frame.child.wrapping_add(1),
        ..frame
    });
    if 0 < frame.child {
        out.put(b", ");
    }
    enter(subject, child, true, frame.depth, stack, out);
}

// Writes the node of a frame as an expression.
fn enter_itself(subject: Subject<'_>, frame: Pending, stack: &mut Stack, out: &mut Text<'_>)
    ensures lent { Lent out.old.bytes out.new.bytes }
{
    stack.advance(frame, frame.child);
    enter(subject, frame.node, true, frame.depth, stack, out);
}

// Takes one step with a frame: the next letter or sign of its template, or its end.
fn step(subject: Subject<'_>, frame: Pending, stack: &mut Stack, out: &mut Text<'_>)
    requires { frame.node < subject.nodes }
    ensures lent { Lent out.old.bytes out.new.bytes }
{
    let depth = frame.depth;
    match next_letter(subject, frame) {
        None => {
            if frame.expression & (frame.node == subject.marked) {
                out.put(b"<<");
            }
        }
        Some(b'A') => enter_argument(subject, frame, stack, out),
        Some(b'E') => enter_child(subject, frame, true, depth, stack, out),
        Some(b'S') => enter_child(subject, frame, false, depth, stack, out),
        Some(b'T') => enter_child(subject, frame, false, deeper(depth), stack, out),
        Some(b'X') => enter_itself(subject, frame, stack, out),
        Some(code) => {
            stack.advance(frame, frame.child);
            put_piece(subject, frame.node, depth, code, out);
        }
    }
}

// Writes the last node of a part, which is its body.
fn put_body(subject: Subject<'_>, out: &mut Text<'_>)
    requires { 0 < subject.nodes }
    ensures lent { Lent out.old.bytes out.new.bytes }
{
    let mut stack = Stack::new();
    enter(subject, subject.nodes - 1, false, 1, &mut stack, out);
    for _ in 0..MOST_STEPS {
        let Some(frame) = stack.pop() else {
            return;
        };
        if frame.node < subject.nodes {
            step(subject, frame, &mut stack, out);
        }
    }
}

// Puts a function, each node by the template of its kind, with the record at a place marked, or none for place 0.
pub fn put_function(file: &[u8], function: usize, place: usize, out: &mut Text<'_>)
    ensures lent { Lent out.old.bytes out.new.bytes }
    ensures last { Ends out.new.bytes.now out.new.used 10 }
{
    let extent = desk_places::part_extent(file, function);
    let start = extent.start;
    let count = extent.count;
    if count == 0 {
        return out.put(b"    the function does not lie in the file\n");
    }
    let a = 12 * start;
    let e = 12 * (start + count);
    let subject = Subject {
        part: &file[a..e],
        nodes: count,
        first: start,
        marked: place.wrapping_sub(start),
    };
    put_signature(file, function, place, out);
    put_body(subject, out);
    put_margin(0, false, 0, out);
    out.put(b"}\n");
}

// Puts the function that the record at a place belongs to, with that record marked.
pub fn put_listing(file: &[u8], place: usize, out: &mut Text<'_>)
    ensures lent { Lent out.old.bytes out.new.bytes }
    ensures last { Ends out.new.bytes.now out.new.used 10 }
{
    match desk_places::locate(file, place) {
        Place::Function { function } => put_function(file, function, place, out),
        Place::Node {
            function,
            node: _,
            kind: _,
        } => put_function(file, function, place, out),
        _ => out.put(b"    no function has this record\n"),
    }
}
