// What is wrong with a file as a whole: its length, its header, the number of its records.
ghost use Rattle.texts.specs.Room.{EndsInside, Lent};

use records::format::{
    HEADER_MARK, LAST_EDITION, LONGEST_FILE, MOST_FUNCTIONS, MOST_NODES, SHORTEST_FILE,
};
use records::{edition_of, function_count, mark_at, node_count, wide};
use texts::Text;

// Puts what is wrong with the length.
pub fn put_length(file: &[u8], out: &mut Text<'_>)
    ensures lent { Lent out.old.bytes out.new.bytes }
    ensures last { EndsInside out.new.bytes.now out.new.used }
{
    let n = file.len();
    if LONGEST_FILE < n {
        return out.put(b"the file has more than the 50,700 bytes of the longest procedure");
    }
    out.put_numbered(b"the file has ", n as u64);
    if n < SHORTEST_FILE {
        return out.put(b" bytes, and a procedure has at least 36");
    }
    out.put(b" bytes, which is no multiple of 12");
}

// Puts what is wrong with the header.
pub fn put_header(file: &[u8], out: &mut Text<'_>)
    ensures lent { Lent out.old.bytes out.new.bytes }
    ensures last { EndsInside out.new.bytes.now out.new.used }
{
    if file.len() < 12 {
        return out.put(b"the file has no header");
    }
    if mark_at(file, 0) != HEADER_MARK {
        return out.put(b"the file does not begin with PR, so it is no procedure");
    }
    let functions = function_count(file);
    if (functions < 1) | (MOST_FUNCTIONS < functions) {
        out.put_numbered(b"the header counts ", functions as u64);
        return out.put(b" functions, and a procedure has 1 to 128");
    }
    let nodes = node_count(file);
    if (nodes < 1) | (MOST_NODES < nodes) {
        out.put_numbered(b"the header counts ", nodes as u64);
        return out.put(b" nodes, and a procedure has 1 to 4,096");
    }
    let edition = wide(edition_of(file));
    if LAST_EDITION < edition {
        out.put_numbered(b"the header says edition ", edition as u64);
        return out.put(b", and this desk knows editions 0 and 1");
    }
    out.put(b"the last three bytes of the header, after its edition, are not zero");
}

// Puts how the length misses the header's counts.
pub fn put_counts(file: &[u8], out: &mut Text<'_>)
    ensures lent { Lent out.old.bytes out.new.bytes }
    ensures last { EndsInside out.new.bytes.now out.new.used }
{
    if file.len() < 12 {
        return out.put(b"the file has no header");
    }
    let functions = function_count(file);
    let nodes = node_count(file);
    let records = 1 + functions + nodes;
    out.put_numbered(b"the header's counts, functions ", functions as u64);
    out.put_numbered(b" and nodes ", nodes as u64);
    out.put_numbered(b", ask for a file of ", 12 * records as u64);
    out.put_numbered(b" bytes, and this one has ", file.len() as u64);
    out.put(b" bytes");
}
