// The parts of a listing's lines: the margin with the record's number and the mark, and the text of one letter of a template.
//
// Small letters and signs stand for themselves; `:` is a semicolon and the end of a line, N the end of a line. L begins a line with
// the node's record, D does so one level deeper, and M begins a line without a record. V is the node's variable, F its function,
// O its operator, I its int, B its bool, Y its type.
ghost use Rattle.std.specs.Prelude.{◌≡◌, ◌*◌, ◌<◌, ◌≤◌, length};
ghost use Rattle.texts.specs.Room.{Ends, EndsInside, Lent};

use records::nodes::{a_at, arity_at, b_at, kind_at, prior, size_at};
use records::{mask_of, params_of, result_of};
use texts::Text;
use texts::kinds::put_operator;

// How many levels lines are indented at most.
const DEEPEST: usize = 32;

// What is written: the records of a function's nodes, how many there are, the record of the first, and the node that is marked.
#[derive(Clone, Copy)]
pub struct Subject<'a> {
    pub part: &'a [u8],
    pub nodes: usize,
    pub first: usize,
    pub marked: usize,
    pub ghost whole: { 12 * nodes ≤ length part.now },
}

// One level deeper, as far as lines are indented.
pub fn deeper(depth: usize) -> usize
    ensures { result ≤ 32 }
{
    if depth < DEEPEST { depth + 1 } else { DEEPEST }
}

// Puts the number of a record four places wide, and spaces where there is none.
fn put_record(record: usize, out: &mut Text<'_>)
    ensures lent { Lent out.old.bytes out.new.bytes }
{
    match record {
        0 => return out.put(b"    "),
        1..=9 => out.put(b"   "),
        10..=99 => out.put(b"  "),
        100..=999 => out.put(b" "),
        _ => {}
    }
    out.put_decimal(record as u64);
}

// Puts the indentation of a line.
fn put_indentation(depth: usize, out: &mut Text<'_>)
    ensures lent { Lent out.old.bytes out.new.bytes }
    ensures last { EndsInside out.old.bytes.now out.old.used → EndsInside out.new.bytes.now out.new.used }
{
    for _ in 0..depth.min(DEEPEST) {
        out.put(b"  ");
    }
}

// Puts the start of a line: the mark, the number of the record and the indentation.
pub fn put_margin(record: usize, marked: bool, depth: usize, out: &mut Text<'_>)
    ensures lent { Lent out.old.bytes out.new.bytes }
    ensures last { EndsInside out.new.bytes.now out.new.used }
{
    out.put_word(&["    ", "  > "], marked as usize);
    put_record(record, out);
    out.put(b"  ");
    put_indentation(depth, out);
}

// Child k of node i, counted from the left.
pub fn child_of(subject: Subject<'_>, i: usize, k: usize) -> usize
    requires { i < subject.nodes }
    ensures { result < subject.entry.nodes }
{
    let mut c = i.saturating_sub(1);
    let left = arity_at(subject.part, i).saturating_sub(k.wrapping_add(1));
    for _ in 0..left {
        c = prior(subject.part, c);
    }
    c
}

// Whether the line that node i begins has the marked node: the node itself, or one of the expression on the line.
fn line_marked(subject: Subject<'_>, i: usize) -> bool
    requires { i < subject.nodes }
{
    let part = subject.part;
    let marked = subject.marked;
    if i == marked {
        return true;
    }
    let shown = match kind_at(part, i) {
        9 => return false,
        10..=11 => child_of(subject, i, 0),
        _ => i,
    };
    (marked <= shown) & (shown < marked.wrapping_add(size_at(part, shown)))
}

// Puts the start of the line that node i begins: with its own record or, where the line has the marked node, with that one's.
fn put_start(subject: Subject<'_>, i: usize, depth: usize, out: &mut Text<'_>)
    requires { i < subject.nodes }
    ensures lent { Lent out.old.bytes out.new.bytes }
{
    let marked = line_marked(subject, i);
    let shown = if marked { subject.marked } else { i };
    put_margin(subject.first.wrapping_add(shown), marked, depth, out);
}

// Puts what a letter or a sign of a template stands for at node i.
pub fn put_piece(subject: Subject<'_>, i: usize, depth: usize, code: u8, out: &mut Text<'_>)
    requires { i < subject.nodes }
    ensures lent { Lent out.old.bytes out.new.bytes }
    ensures last { code ≡ 78 → Ends out.new.bytes.now out.new.used 10 }
{
    let part = subject.part;
    let b = b_at(part, i);
    match code {
        b':' => out.put(b";\n"),
        b'N' => out.put_byte(b'\n'),
        b'M' => put_margin(0, false, depth, out),
        b'L' => put_start(subject, i, depth, out),
        b'D' => put_margin(
            subject.first.wrapping_add(i),
            i == subject.marked,
            deeper(depth),
            out,
        ),
        b'V' => out.put_numbered(b"x", b as u64),
        b'F' => out.put_numbered(b"f", b as u64),
        b'O' => put_operator(a_at(part, i), out),
        b'I' => out.put_int(b),
        b'B' => out.put_word(&["false", "true"], b as usize),
        b'Y' => out.put_word(&["void", "int", "bool"], a_at(part, i) as usize),
        _ => out.put_byte(code),
    }
}

// Puts the parameters of a function between commas: its first n, whose types the mask has.
fn put_parameters(n: u8, mask: u8, out: &mut Text<'_>)
    ensures lent { Lent out.old.bytes out.new.bytes }
{
    let mut rest = mask;
    for i in 0..n {
        if 0 < i {
            out.put(b", ");
        }
        out.put_word(&["int ", "bool "], (rest % 2) as usize);
        out.put_numbered(b"x", i as u64);
        rest /= 2;
    }
}

// Puts a function's result, its name and its parameters.
fn put_head(file: &[u8], function: usize, out: &mut Text<'_>)
    ensures lent { Lent out.old.bytes out.new.bytes }
{
    if function < (file.len() / 12).saturating_sub(1) {
        out.put_word(
            &["void f", "int f", "bool f"],
            result_of(file, function) as usize,
        );
        out.put_decimal(function as u64);
        out.put(b"(");
        put_parameters(params_of(file, function), mask_of(file, function), out);
    }
}

// Puts the first line of a function.
pub fn put_signature(file: &[u8], function: usize, place: usize, out: &mut Text<'_>)
    ensures lent { Lent out.old.bytes out.new.bytes }
    ensures last { Ends out.new.bytes.now out.new.used 10 }
{
    let record = function.wrapping_add(1);
    put_margin(record, place == record, 0, out);
    put_head(file, function, out);
    out.put(b") {\n");
}
