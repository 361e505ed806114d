// What the desk says of a file: a line for people with the function shown below it, or an object for programs.
#![tactic(auto)]

pub mod counts;
pub mod objects;
pub mod strings;

ghost use Rattle.std.specs.Prelude.{◌≡◌, Bool, true, false};
ghost use Rattle.texts.specs.Room.{Ends, Lent};

use check_file::Refusal;
use desk_files::SystemError;
use records::{edition_of, function_count};
use texts::Text;

// What the desk writes of a file: a line, a line with the functions shown below it, or an object.
#[derive(Clone, Copy)]
pub enum Form {
    Line,
    Listing,
    Object,
}

// How the desk speaks: in which form, and whether it leaves out files that pass.
#[derive(Clone, Copy)]
pub struct Style {
    pub form: Form,
    pub quiet: bool,
}

// Puts all functions of a file, with no record marked.
fn put_functions(file: &[u8], out: &mut Text<'_>)
    ensures lent { Lent out.old.bytes out.new.bytes }
    ensures last { Ends out.old.bytes.now out.old.used 10 → Ends out.new.bytes.now out.new.used 10 }
{
    if 12 <= file.len() {
        for function in 0..function_count(file) {
            desk_listing::put_function(file, function, 0, out);
        }
    }
}

// Puts the edition of a file, where it is not edition 0.
fn put_edition(file: &[u8], out: &mut Text<'_>)
    ensures lent { Lent out.old.bytes out.new.bytes }
{
    if 12 <= file.len() {
        let edition = edition_of(file);
        if edition != 0 {
            out.put_numbered(b", edition ", edition as u64);
        }
    }
}

// Puts the line of a file that passes.
fn put_passed_line(name: &[u8], file: &[u8], out: &mut Text<'_>)
    ensures lent { Lent out.old.bytes out.new.bytes }
    ensures last { Ends out.new.bytes.now out.new.used 10 }
{
    out.put(name);
    out.put(b": passed");
    put_edition(file, out);
    out.put(b"\n");
}

// Puts what is said of a file that passes, which is nothing where those are left out.
pub fn put_passed(style: Style, name: &[u8], file: &[u8], revision: &[u8], out: &mut Text<'_>)
    ensures lent { Lent out.old.bytes out.new.bytes }
    ensures quiet { style.quiet ≡ true → (out.new.bytes.now ≡ out.old.bytes.now) × (out.new.used ≡ out.old.used) }
    ensures said { style.quiet ≡ false → Ends out.new.bytes.now out.new.used 10 }
{
    if style.quiet {
        return;
    }
    match style.form {
        Form::Line => put_passed_line(name, file, out),
        Form::Listing => {
            put_passed_line(name, file, out);
            put_functions(file, out);
        }
        Form::Object => objects::put_passed_object(name, file, revision, out),
    }
}

// Puts a refusal's numbers and its sentence after the name.
fn put_line(name: &[u8], file: &[u8], refusal: Refusal, out: &mut Text<'_>)
    ensures lent { Lent out.old.bytes out.new.bytes }
    ensures last { Ends out.new.bytes.now out.new.used 10 }
{
    out.put(name);
    out.put_numbered(b": refused ", refusal.question as u64);
    out.put_numbered(b" place ", refusal.place as u64);
    out.put_numbered(b" item ", refusal.item as u64);
    out.put(b": ");
    desk_sentences::put_sentence(file, refusal.question, refusal.place, refusal.item, out);
    out.put(b"\n");
}

// Puts the function that a refusal names; before question 9 the records may not make a tree.
fn put_look(file: &[u8], refusal: Refusal, out: &mut Text<'_>)
    ensures lent { Lent out.old.bytes out.new.bytes }
    ensures last { Ends out.new.bytes.now out.new.used 10 }
{
    if refusal.question < 9 {
        return out.put(b"    no function is shown: the records of this file do not make one\n");
    }
    desk_listing::put_listing(file, refusal.place, out);
}

// Puts what is said of a file that is refused.
pub fn put_refused(
    style: Style,
    name: &[u8],
    file: &[u8],
    refusal: Refusal,
    revision: &[u8],
    out: &mut Text<'_>,
)
    ensures lent { Lent out.old.bytes out.new.bytes }
    ensures last { Ends out.new.bytes.now out.new.used 10 }
{
    match style.form {
        Form::Line => put_line(name, file, refusal, out),
        Form::Listing => {
            put_line(name, file, refusal, out);
            put_look(file, refusal, out);
        }
        Form::Object => objects::put_refused_object(name, file, refusal, revision, out),
    }
}

// Puts what is said of a file that cannot be read.
pub fn put_unread(
    style: Style,
    name: &[u8],
    error: SystemError,
    revision: &[u8],
    out: &mut Text<'_>,
)
    ensures lent { Lent out.old.bytes out.new.bytes }
    ensures last { Ends out.new.bytes.now out.new.used 10 }
{
    match style.form {
        Form::Object => objects::put_unread_object(name, error, revision, out),
        Form::Line | Form::Listing => {
            out.put(name);
            out.put(b": cannot be read: ");
            desk_files::put_error(out, error);
            out.put(b"\n");
        }
    }
}
