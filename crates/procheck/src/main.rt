// Checks the procedure on standard input, and prints one line: passed, or the refusal.
#![tactic(auto)]

ghost use Rattle.texts.specs.Room.{Lent};

use records::format::KEPT_BYTES;
use texts::Text;

// Puts the answer to a file.
fn put_answer(file: &[u8], out: &mut Text<'_>)
    ensures lent { Lent out.old.bytes out.new.bytes }
{
    match check_file::check(file) {
        Ok(()) => out.put(b"passed\n"),
        Err(r) => out.put_refusal(r.question, r.place, r.item),
    }
}

fn main() {
    let mut buffer = [0u8; KEPT_BYTES];
    let n = io::read_full(0, &mut buffer);
    let mut line = [0u8; 64];
    let mut out = Text::new(&mut line);
    put_answer(&buffer[..n], &mut out);
    out.write_out();
}
