// A file's bytes by its name, or the error that the system gave, with the system's words for it, and names as they are printed.
#![tactic(auto)]

ghost use Rattle.std.specs.Prelude.{◌≤◌, length};
ghost use Rattle.desk_files.specs.Kept.{Inside};
ghost use Rattle.desk_files.specs.Names.{Plain};
ghost use Rattle.texts.specs.Room.{EndsInside, Lent};

use std::fs::File;
use std::io;
use std::io::Read;
use std::rt::Files;
use texts::Text;

// The file that the name of one dash is read from: descriptor 3.
const DASH: &str = "/proc/self/fd/3";

// What kept a file from being read, by the number that the system gives it.
#[derive(Clone, Copy, PartialEq, Eq)]
pub struct SystemError {
    pub number: i32,
}

// The errors that are named here: no such file, a bad descriptor, an argument that is not valid, a name that is too long, and one that
// is no text.
const NO_SUCH_FILE: SystemError = SystemError { number: 2 };

const BAD_DESCRIPTOR: SystemError = SystemError { number: 9 };

const NOT_VALID: SystemError = SystemError { number: 22 };

pub const NAME_TOO_LONG: SystemError = SystemError { number: 36 };

const NO_TEXT: SystemError = SystemError { number: 84 };

// An error that came with a number has it, and any other is that of an argument that is not valid.
impl From<io::Error> for SystemError {
    fn from(error: io::Error) -> SystemError {
        match error.raw_os_error() {
            Some(number) => SystemError { number },
            None => NOT_VALID,
        }
    }
}

// Reads a file from where it stands until the buffer is full or the file ends, and answers how many bytes it keeps, which `read_exact`
// does not say of a file that ends before.
fn read_file<F: Read>(source: &mut F, file: &mut [u8]) -> Result<usize, SystemError>
    ensures { Inside result (length file.new) }
{
    let mut n = 0;
    while n < file.len() {
        match source.read(&mut file[n..])? {
            0 => return Ok(n),
            more => n += more,
        }
    }
    Ok(n)
}

// Opens, reads and closes the file of that path.
fn content_at<R: Files>(rt: &R, path: &str, file: &mut [u8]) -> Result<usize, SystemError>
    ensures { Inside result (length file.new) }
{
    let mut source = File::open(rt, path)?;
    read_file(&mut source, file)
}

// Opens descriptor 3 anew and reads it: a pipe from where it stands, a file from its start. It is a bad descriptor where it is not open.
fn content_of_dash<R: Files>(rt: &R, file: &mut [u8]) -> Result<usize, SystemError>
    ensures { Inside result (length file.new) }
{
    match content_at(rt, DASH, file) {
        Err(NO_SUCH_FILE) => Err(BAD_DESCRIPTOR),
        content => content,
    }
}

// Opens, reads and closes the file of that name; one dash is what descriptor 3 gives, since names come by standard input. A name
// that is no UTF-8 opens nothing.
pub fn content_of<R: Files>(rt: &R, name: &[u8], file: &mut [u8]) -> Result<usize, SystemError>
    ensures { Inside result (length file.new) }
{
    if let b"-" = name {
        return content_of_dash(rt, file);
    }
    match str::from_utf8(name) {
        Err(_) => Err(NO_TEXT),
        Ok(path) => content_at(rt, path, file),
    }
}

// Puts the system's words for an error, or its number where it is past the usual ones; a number below 0 has the words of 0.
pub fn put_error(out: &mut Text<'_>, error: SystemError)
    ensures lent { Lent out.old.bytes out.new.bytes }
    ensures last { EndsInside out.new.bytes.now out.new.used }
{
    match error.number {
        i32::MIN..=0 => out.put(b"Success"),
        1 => out.put(b"Operation not permitted"),
        2 => out.put(b"No such file or directory"),
        3 => out.put(b"No such process"),
        4 => out.put(b"Interrupted system call"),
        5 => out.put(b"Input/output error"),
        6 => out.put(b"No such device or address"),
        7 => out.put(b"Argument list too long"),
        8 => out.put(b"Exec format error"),
        9 => out.put(b"Bad file descriptor"),
        10 => out.put(b"No child processes"),
        11 => out.put(b"Resource temporarily unavailable"),
        12 => out.put(b"Cannot allocate memory"),
        13 => out.put(b"Permission denied"),
        14 => out.put(b"Bad address"),
        15 => out.put(b"Block device required"),
        16 => out.put(b"Device or resource busy"),
        17 => out.put(b"File exists"),
        18 => out.put(b"Invalid cross-device link"),
        19 => out.put(b"No such device"),
        20 => out.put(b"Not a directory"),
        21 => out.put(b"Is a directory"),
        22 => out.put(b"Invalid argument"),
        23 => out.put(b"Too many open files in system"),
        24 => out.put(b"Too many open files"),
        25 => out.put(b"Inappropriate ioctl for device"),
        26 => out.put(b"Text file busy"),
        27 => out.put(b"File too large"),
        28 => out.put(b"No space left on device"),
        29 => out.put(b"Illegal seek"),
        30 => out.put(b"Read-only file system"),
        31 => out.put(b"Too many links"),
        32 => out.put(b"Broken pipe"),
        33 => out.put(b"Numerical argument out of domain"),
        34 => out.put(b"Numerical result out of range"),
        35 => out.put(b"Resource deadlock avoided"),
        36 => out.put(b"File name too long"),
        37 => out.put(b"No locks available"),
        38 => out.put(b"Function not implemented"),
        39 => out.put(b"Directory not empty"),
        40 => out.put(b"Too many levels of symbolic links"),
        number => out.put_numbered(b"system error ", number as u64),
    }
}

// A byte as it is printed: a question mark for a control byte.
fn plain(b: u8) -> u8
    ensures { 32 ≤ result }
{
    match b {
        0..=31 | 127 => b'?',
        _ => b,
    }
}

// Makes every control byte of a name a question mark, so that a name is part of one line.
pub fn make_plain(name: &mut [u8])
    ensures { Plain name.new (length name.new) }
{
    for i in 0..name.len() {
        name[i] = plain(name[i]);
    }
}
