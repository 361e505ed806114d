// The entry points for a host in C or Rust, on numbers and slices.
#![tactic(auto)]

mod logs;

ghost use Rattle.std.specs.Prelude.{◌≡◌, Ok, [], ◌∷◌, leb, length};
ghost use Rattle.spec_language.specs.Check.{check_of};
ghost use Rattle.check_file.specs.Answers.{says, SmallRefusal, Small};
ghost use Rattle.spec_answers.specs.Answers.{start_answer, start_memory, memory_answer, run_answer, run_memory, look_answer};
ghost use Rattle.entry_run.specs.Replies.{reply_of};
ghost use Rattle.entry_memory.specs.Looks.{look_of};
ghost use Rattle.words.specs.Blocks.{puts};
ghost use Rattle.varset.specs.Lowest.{pick};
ghost use Rattle.panelrue_c.specs.Packed.{packed_refusal, packed};
ghost use Rattle.panelrue_c.specs.HostAnswers.{outcome_number, outcome_word, run_number, run_words, look_number, look_kind, look_word, look_words};

use check_file::Refusal;
use entry_memory::Look;
use run_loop::{Outcome, Ran};

// The number of a refusal.
fn pack(refusal: Refusal) -> u64
    requires { SmallRefusal refusal }
    ensures { result ≡ packed_refusal refusal }
{
    let a = refusal.question as u64;
    let b = refusal.item as u64;
    let c = refusal.place as u64;
    a + 256 * b + 65536 * c
}

// The number of an answer.
fn number(answer: Result<(), Refusal>) -> u64
    requires { Small answer }
    ensures { result ≡ packed (says answer) }
{
    match answer {
        Ok(()) => 0,
        Err(refusal) => pack(refusal),
    }
}

// 0 where the file passes the check; else the question, 256 times the item and 65,536 times the place together. Question 1 is asked here too
// of files that are not long, before the check makes room for its work.
#[unsafe(no_mangle)]
pub extern "C" fn panelrue_check(file: &[u8]) -> u64
    ensures { result ≡ packed (check_of file.now) }
{
    if check_header::is_cut(file) {
        return 1;
    }
    number(check_file::check(file))
}

// Starts the file's procedure in the memory, where 0 is answered; a refusal leaves the memory as it was.
#[unsafe(no_mangle)]
pub extern "C" fn panelrue_start(file: &[u8], memory: &mut [u32]) -> u64
    ensures answer { result ≡ packed (start_answer file.now memory.old) }
    ensures memory { memory.new ≡ start_memory file.now memory.old }
{
    number(entry_start::start(file, memory))
}

// 0 where the memory holds the image of a fit state of the file's procedure.
#[unsafe(no_mangle)]
pub extern "C" fn panelrue_memory_check(file: &[u8], memory: &[u32]) -> u64
    ensures { result ≡ packed (memory_answer file.now memory.now) }
{
    number(entry_memory::check_memory(file, memory))
}

// The number of an outcome.
fn outcome_number(outcome: Outcome) -> u64
    ensures { result ≡ outcome_number outcome }
{
    match outcome {
        Outcome::Value(z) => 0,
        Outcome::Arith => 1,
        Outcome::Abort => 2,
        Outcome::Spent => 3,
        Outcome::Full => 4,
    }
}

// The word of an outcome's int.
fn outcome_word(outcome: Outcome) -> u64
    ensures { result ≡ outcome_word outcome }
{
    match outcome {
        Outcome::Value(z) => arith::bits(z) as u64,
        Outcome::Arith => 0,
        Outcome::Abort => 0,
        Outcome::Spent => 0,
        Outcome::Full => 0,
    }
}

// Outcome, int and steps for the host, where it has room for three words.
fn tell_run(answer: &mut [u64], r: Ran)
    ensures { answer.new ≡ run_words (Ok r) answer.old }
{
    if answer.len() < 3 {
        return;
    }
    let outcome = r.outcome;
    let a = outcome_number(outcome);
    let b = outcome_word(outcome);
    answer[0] = a;
    answer[1] = b;
    answer[2] = r.steps;
}

// Runs the procedure in the memory for at most so many steps, where 0 is answered; a refusal leaves memory and answer as they were.
#[unsafe(no_mangle)]
pub extern "C" fn panelrue_run(
    file: &[u8],
    memory: &mut [u32],
    allowance: u64,
    answer: &mut [u64],
) -> u64
    ensures number { result ≡ run_number (reply_of (run_answer file.now memory.old allowance)) }
    ensures memory { memory.new ≡ run_memory file.now memory.old allowance }
    ensures told { answer.new ≡ run_words (reply_of (run_answer file.now memory.old allowance)) answer.old }
{
    match entry_run::run(file, memory, allowance) {
        Ok(r) => {
            tell_run(answer, r);
            0
        }
        Err(refusal) => pack(refusal),
    }
}

// The type of what a variable holds.
fn look_kind(look: Look) -> u64
    ensures { result ≡ look_kind look }
{
    match look {
        Look::Nothing => 0,
        Look::Int(_) => 1,
        Look::Truth(_) => 2,
    }
}

// Its word.
fn look_word(look: Look) -> u64
    ensures { result ≡ look_word look }
{
    match look {
        Look::Nothing => 0,
        Look::Int(z) => arith::bits(z) as u64,
        Look::Truth(truth) => state_words::bit_of(truth) as u64,
    }
}

// Type and word for the host, where it has room for two words.
fn tell_look(answer: &mut [u64], kind: u64, word: u64)
    ensures { answer.new ≡ pick (leb 2 (length answer.old)) (puts answer.old 0 0 (kind ∷ word ∷ [])) answer.old }
{
    if answer.len() < 2 {
        return;
    }
    answer[0] = kind;
    answer[1] = word;
}

// What variable x of the current activation holds, where 0 is answered; a refusal leaves the answer as it was.
#[unsafe(no_mangle)]
pub extern "C" fn panelrue_look_up(file: &[u8], memory: &[u32], x: u32, answer: &mut [u64]) -> u64
    ensures number { result ≡ look_number (look_of (look_answer file.now memory.now x)) }
    ensures told { answer.new ≡ look_words (look_of (look_answer file.now memory.now x)) answer.old }
{
    match entry_memory::look_up(file, memory, x) {
        Ok(look) => {
            tell_look(answer, look_kind(look), look_word(look));
            0
        }
        Err(refusal) => pack(refusal),
    }
}
