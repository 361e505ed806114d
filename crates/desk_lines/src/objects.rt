// What the desk says of a file as a JSON object on one line, with null where there is nothing to say.
ghost use Rattle.std.specs.Prelude.{◌≡◌};
ghost use Rattle.texts.specs.Room.{Ends, Lent};

use crate::strings::{put_hex, put_string};
use check_file::Refusal;
use desk_files::SystemError;
use desk_places::Place;
use records::edition_of;
use records::format::LONGEST_FILE;
use records::nodes::b_at;
use texts::Text;

// What a refusal names: the function, the node counted in it, and the variable.
#[derive(Clone, Copy)]
struct Named {
    function: Option<usize>,
    node: Option<usize>,
    variable: Option<u32>,
}

// The variable that a node reads, assigns or declares; by kind.
fn variable_of(file: &[u8], place: usize, kind: u8) -> Option<u32> {
    match kind {
        2 | 8 | 9 if place < file.len() / 12 => Some(b_at(file, place)),
        _ => None,
    }
}

// What the refusal of a file names; its item is a variable for question 10 alone.
fn names_of(file: &[u8], refusal: Refusal) -> Named {
    match desk_places::locate(file, refusal.place) {
        Place::Function { function } => Named {
            function: Some(function),
            node: None,
            variable: if refusal.question == 10 {
                Some(refusal.item)
            } else {
                None
            },
        },
        Place::Node {
            function,
            node,
            kind,
        } => Named {
            function: Some(function),
            node: Some(node),
            variable: variable_of(file, refusal.place, kind),
        },
        _ => Named {
            function: None,
            node: None,
            variable: None,
        },
    }
}

// Puts the start of an object: the name and the verdict.
fn put_begun(name: &[u8], verdict: &[u8], out: &mut Text<'_>)
    ensures lent { Lent out.old.bytes out.new.bytes }
{
    out.put(b"{\"name\":");
    put_string(name, out);
    out.put(b",\"verdict\":");
    put_string(verdict, out);
}

// Puts a field with its label, null where there is no number.
fn put_field(label: &[u8], field: Option<u64>, out: &mut Text<'_>)
    ensures lent { Lent out.old.bytes out.new.bytes }
{
    out.put(label);
    match field {
        Some(n) => out.put_decimal(n),
        None => out.put(b"null"),
    }
}

// Puts the numbers of a refusal and what it names.
fn put_numbers(file: &[u8], refusal: Refusal, out: &mut Text<'_>)
    ensures lent { Lent out.old.bytes out.new.bytes }
{
    let names = names_of(file, refusal);
    out.put_numbered(b",\"question\":", refusal.question as u64);
    out.put_numbered(b",\"place\":", refusal.place as u64);
    out.put_numbered(b",\"item\":", refusal.item as u64);
    put_field(b",\"function\":", names.function.map(|n| n as u64), out);
    put_field(b",\"node\":", names.node.map(|n| n as u64), out);
    put_field(b",\"variable\":", names.variable.map(|n| n as u64), out);
}

// Puts that a file is refused by no question.
fn put_no_numbers(out: &mut Text<'_>)
    ensures lent { Lent out.old.bytes out.new.bytes }
{
    out.put(
        b",\"question\":null,\"place\":null,\"item\":null,\"function\":null,\"node\":null,\"variable\":null",
    );
}

// The edition of a file, if its header is right.
fn edition_field(file: &[u8], right: bool) -> Option<u64> {
    if right & (12 <= file.len()) {
        Some(edition_of(file) as u64)
    } else {
        None
    }
}

// Puts the digest of a file that was read to its end, and null for a longer one.
fn put_digest(file: &[u8], out: &mut Text<'_>)
    ensures lent { Lent out.old.bytes out.new.bytes }
{
    if LONGEST_FILE < file.len() {
        return out.put(b",\"sha256\":null");
    }
    out.put(b",\"sha256\":\"");
    for b in &desk_digest::sha256(file) {
        put_hex(*b, out);
    }
    out.put(b"\"");
}

// Puts what is known of a file's content: the edition, if its header is right, and the digest.
fn put_content(file: &[u8], right: bool, out: &mut Text<'_>)
    ensures lent { Lent out.old.bytes out.new.bytes }
{
    put_field(b",\"edition\":", edition_field(file, right), out);
    put_digest(file, out);
}

// Puts the end of an object: the revision of the desk.
fn put_ended(revision: &[u8], out: &mut Text<'_>)
    ensures lent { Lent out.old.bytes out.new.bytes }
    ensures last { Ends out.new.bytes.now out.new.used 10 }
{
    out.put(b",\"revision\":");
    put_string(revision, out);
    out.put(b"}\n");
}

// Puts the object of a file that passes.
pub fn put_passed_object(name: &[u8], file: &[u8], revision: &[u8], out: &mut Text<'_>)
    ensures lent { Lent out.old.bytes out.new.bytes }
    ensures last { Ends out.new.bytes.now out.new.used 10 }
{
    put_begun(name, b"passed", out);
    put_no_numbers(out);
    out.put(b",\"sentence\":null");
    put_content(file, true, out);
    put_ended(revision, out);
}

// Puts the object of a file that is refused.
pub fn put_refused_object(
    name: &[u8],
    file: &[u8],
    refusal: Refusal,
    revision: &[u8],
    out: &mut Text<'_>,
)
    ensures lent { Lent out.old.bytes out.new.bytes }
    ensures last { Ends out.new.bytes.now out.new.used 10 }
{
    put_begun(name, b"refused", out);
    put_numbers(file, refusal, out);
    out.put(b",\"sentence\":\"");
    desk_sentences::put_sentence(file, refusal.question, refusal.place, refusal.item, out);
    out.put(b"\"");
    put_content(file, 2 < refusal.question, out);
    put_ended(revision, out);
}

// Puts the object of a file that cannot be read.
pub fn put_unread_object(name: &[u8], error: SystemError, revision: &[u8], out: &mut Text<'_>)
    ensures lent { Lent out.old.bytes out.new.bytes }
    ensures last { Ends out.new.bytes.now out.new.used 10 }
{
    put_begun(name, b"unread", out);
    put_no_numbers(out);
    out.put(b",\"sentence\":\"cannot be read: ");
    desk_files::put_error(out, error);
    out.put(b"\",\"edition\":null,\"sha256\":null");
    put_ended(revision, out);
}
