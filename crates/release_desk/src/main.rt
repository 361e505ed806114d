// Checks procedures by name and says of each that it passed, why it is refused, or why it cannot be read; last the counts.
//
// The names come by standard input, each ended by a zero byte. The first argument may be `show` or `json`, the second `refused`, and
// the third is the revision that objects name.
#![tactic(auto)]

ghost use Rattle.std.specs.Prelude.{◌≤◌, length};

use desk_files::{NAME_TOO_LONG, SystemError};
use desk_lines::counts::{Tally, put_counts};
use desk_lines::{Form, Style};
use records::format::KEPT_BYTES;
use std::io::{Input, Read};
use std::rt::{Env, Files};
use texts::Text;

// How many bytes a name has at most.
const LONGEST_NAME: usize = 4096;

// A name while it is read: its bytes so far, and whether it has more than a name may have.
#[derive(Drop)]
struct Name {
    bytes: [u8; LONGEST_NAME],
    used: usize,
    long: bool,
    ghost inside: { used ≤ length bytes },
}

impl Name {
    // A name of which nothing is read yet.
    fn new() -> Name {
        Name {
            bytes: [0; LONGEST_NAME],
            used: 0,
            long: false,
        }
    }

    // Adds a byte, where there is room.
    fn push(&mut self, b: u8) {
        if self.used < LONGEST_NAME {
            self.bytes[self.used] = b;
            self.used += 1;
        } else {
            self.long = true;
        }
    }

    // Begins the next name.
    fn clear(&mut self) {
        self.used = 0;
        self.long = false;
    }
}

// The desk: how it speaks, the revision that it names, the file that it reads, what it says and what it counts.
#[derive(Drop)]
struct Desk<'r, 'o> {
    style: Style,
    revision: &'r [u8],
    file: [u8; KEPT_BYTES],
    out: Text<'o>,
    tally: Tally,
}

impl Desk<'_, '_> {
    // Says what the check says of a file of n bytes that was read, and counts it.
    fn serve_content(&mut self, name: &[u8], n: usize)
        requires { n ≤ length self.old.file }
    {
        let file = &self.file[..n];
        match check_file::check(file) {
            Ok(()) => {
                self.tally.count_passed();
                desk_lines::put_passed(self.style, name, file, self.revision, &mut self.out);
            }
            Err(r) => {
                self.tally.count_refused(r.question);
                desk_lines::put_refused(self.style, name, file, r, self.revision, &mut self.out);
            }
        }
    }

    // Says why a file cannot be read, and counts it.
    fn serve_error(&mut self, name: &[u8], error: SystemError) {
        self.tally.count_unread();
        desk_lines::put_unread(self.style, name, error, self.revision, &mut self.out);
    }

    // Makes a name printable where it is printed as it is.
    fn make_printed(&self, name: &mut [u8]) {
        match self.style.form {
            Form::Object => {}
            Form::Line | Form::Listing => desk_files::make_plain(name),
        }
    }

    // Serves one file: reads it, checks it and says what came of it.
    fn serve(&mut self, rt: &impl Files, name: &mut [u8]) {
        let content = desk_files::content_of(rt, name, &mut self.file);
        self.make_printed(name);
        match content {
            Ok(n) => self.serve_content(name, n),
            Err(error) => self.serve_error(name, error),
        }
    }

    // Serves the file of a name that has been read.
    fn serve_name(&mut self, rt: &impl Files, name: &Name) {
        let mut bytes = name.bytes;
        let text = &mut bytes[..name.used];
        if name.long {
            self.make_printed(text);
            self.serve_error(text, NAME_TOO_LONG);
        } else {
            self.serve(rt, text);
        }
    }

    // Takes in a byte of a list of names, each of which ends with a zero byte.
    fn take(&mut self, rt: &impl Files, b: u8, name: &mut Name) {
        if b == 0 {
            self.serve_name(rt, name);
            name.clear();
        } else {
            name.push(b);
        }
    }

    // Takes in some bytes of a list of names.
    fn take_all(&mut self, rt: &impl Files, bytes: &[u8], name: &mut Name) {
        for b in bytes {
            self.take(rt, *b, name);
        }
    }

    // Serves the names that standard input ends with a zero byte. No run uses up the number of turns.
    fn serve_ended(&mut self, rt: &(impl Files + Input), name: &mut Name) {
        let mut input = rt.reader();
        let mut bytes = [0u8; 4096];
        for _ in 0..u64::MAX {
            let n = read_some(&mut input, &mut bytes);
            if n == 0 {
                return;
            }
            self.take_all(rt, &bytes[..n], name);
        }
    }

    // Serves the files that standard input names, the last name with or without a zero byte, and writes out what is said of them with
    // the counts.
    fn serve_list(&mut self, rt: &(impl Files + Input)) {
        let mut name = Name::new();
        self.serve_ended(rt, &mut name);
        if 0 < name.used {
            self.serve_name(rt, &name);
        }
        put_counts(&self.tally, &mut self.out);
        self.out.write_out();
    }
}

// Reads what bytes there are, and none where the input ends or cannot be read.
fn read_some<I: Read>(input: &mut I, bytes: &mut [u8]) -> usize
    ensures { result ≤ length bytes.new }
{
    match input.read(bytes) {
        Ok(n) => n,
        Err(_) => 0,
    }
}

// Puts argument i at the start of a text and answers its length, or 0 where it is missing or longer than the text.
fn put_argument(rt: &impl Env, i: usize, text: &mut [u8]) -> usize
    ensures { result ≤ length text.new }
{
    match rt.arg(i, text) {
        Ok(n) => n,
        Err(_) => 0,
    }
}

// Whether argument i is that word.
fn is_argument(rt: &impl Env, i: usize, word: &[u8]) -> bool {
    let mut text = [0u8; 16];
    let n = put_argument(rt, i, &mut text);
    &text[..n] == word
}

// The form that the first argument asks for.
fn form_asked(rt: &impl Env) -> Form {
    if is_argument(rt, 1, b"show") {
        Form::Listing
    } else if is_argument(rt, 1, b"json") {
        Form::Object
    } else {
        Form::Line
    }
}

// Serves the files that standard input names, in the form that the arguments ask for.
fn main(rt: HostRuntime) {
    let mut revision = [0u8; 128];
    let n = put_argument(&rt, 3, &mut revision);
    let mut buffer = [0u8; 4096];
    let mut desk = Desk {
        style: Style {
            form: form_asked(&rt),
            quiet: is_argument(&rt, 2, b"refused"),
        },
        revision: &revision[..n],
        file: [0; KEPT_BYTES],
        out: Text::new(&mut buffer),
        tally: Tally::new(),
    };
    desk.serve_list(&rt);
}
