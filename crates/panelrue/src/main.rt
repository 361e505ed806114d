// Runs the procedure on standard input for 10,000 steps in a memory of its own, and prints one line: the outcome, or the refusal.
#![tactic(auto)]

ghost use Rattle.texts.specs.Room.{Lent};

use check_file::Refusal;
use records::format::KEPT_BYTES;
use run_loop::{Outcome, Ran};
use state_words::layout::IMAGE_WORDS;
use texts::Text;

// Puts an outcome, and its int if it is a value.
fn put_outcome(outcome: Outcome, out: &mut Text<'_>)
    ensures lent { Lent out.old.bytes out.new.bytes }
{
    match outcome {
        Outcome::Value(v) => {
            out.put(b"value ");
            out.put_int(arith::bits(v));
        }
        Outcome::Arith => out.put(b"arith"),
        Outcome::Abort => out.put(b"abort"),
        Outcome::Spent => out.put(b"Spent"),
        Outcome::Full => out.put(b"Full"),
    }
}

// Puts how a run ended.
fn put_end(ran: Ran, out: &mut Text<'_>)
    ensures lent { Lent out.old.bytes out.new.bytes }
{
    put_outcome(ran.outcome, out);
    out.put_numbered(b" steps ", ran.steps);
    out.put(b"\n");
}

// Starts a file's procedure in a memory of its own and runs it.
fn start_and_run(file: &[u8]) -> Result<Ran, Refusal> {
    let mut memory = [0u32; IMAGE_WORDS];
    entry_start::start(file, &mut memory)?;
    entry_run::run(file, &mut memory, 10000)
}

// Puts how the run of a file's procedure ended, or the refusal.
fn put_run(file: &[u8], out: &mut Text<'_>)
    ensures lent { Lent out.old.bytes out.new.bytes }
{
    match start_and_run(file) {
        Ok(ran) => put_end(ran, out),
        Err(r) => out.put_refusal(r.question, r.place, r.item),
    }
}

fn main() {
    let mut buffer = [0u8; KEPT_BYTES];
    let n = io::read_full(0, &mut buffer);
    let mut line = [0u8; 64];
    let mut out = Text::new(&mut line);
    put_run(&buffer[..n], &mut out);
    out.write_out();
}
