// The entry points that keep a log: a run that writes a record for each step, and a step back by the last record.
#![tactic(auto)]

ghost use Rattle.std.specs.Prelude.{◌≡◌, true, List, ◌++◌, ℕ, ◌≤◌, length, take};
ghost use Rattle.spec_image.specs.Sizes.{size};
ghost use Rattle.spec_machine.specs.Machine.{State};
ghost use Rattle.spec_machine.specs.Fit.{Fit};
ghost use Rattle.spec_machine.specs.File.{program_of};
ghost use Rattle.spec_image.specs.Image.{image};
ghost use Rattle.run_loop.specs.Runs.{HoldsFit};
ghost use Rattle.spec_log.specs.Records.{has_record};
ghost use Rattle.spec_log.specs.Logged.{log_of};
ghost use Rattle.spec_log.specs.Answers.{back_to, log_answer, log_memory, log_after, back_answer, back_memory};
ghost use Rattle.log_records.specs.Ranges.{Within};
ghost use Rattle.entry_log.specs.Logs.{StepLogged, Stops, went_back};
ghost use Rattle.entry_log.specs.Replies.{log_reply_of, SmallLogReply, back_reply_of, SmallBackReply};

use check_file::Refusal;
use log_records::extent::{Extent, extent_of, joined};
use log_records::images::{copy, is_same};
use log_records::last::{last_bytes, restore};
use run_loop::Outcome;
use state_words::layout::IMAGE_WORDS;

// How a logged run stopped.
#[derive(Clone, Copy)]
pub enum Stop {
    Ended(Outcome),
    LogFull,
}

// How it stopped, how many rules were taken, and how much of the log is used.
#[derive(Clone, Copy)]
pub struct Logged {
    pub stop: Stop,
    pub steps: u64,
    pub used: usize,
}

// A step that was taken and logged: what the state after it fills, and the bytes of its record.
#[derive(Clone, Copy)]
pub struct LoggedStep {
    pub extent: Extent,
    pub bytes: usize,
}

// Takes one rule from the state in the memory, of which `before` is a copy, and puts its record; where that does not fit, nothing is done.
fn log_step(
    file: &[u8],
    m: &mut [u32],
    before: &mut [u32],
    extent: Extent,
    log: &mut [u8],
    used: usize,
) -> Result<LoggedStep, Stop>
    requires { HoldsFit file.now m.old × (size ≤ length m.old) × (before.old ≡ take size m.old) × Within extent.low extent.high before.old }
    ensures { (s : State) (R : List ℕ) → m.old ≡ image s ++ R → Fit (program_of file.now) s → StepLogged (program_of file.now) s R log.old used result m.new before.new log.new }
{
    let ran = run_loop::run(file, m, 1);
    if ran.steps == 0 {
        let outcome = ran.outcome;
        return Err(Stop::Ended(outcome));
    }
    let after = extent_of(m);
    let both = joined(extent, after);
    let low = both.low;
    let high = both.high;
    let k = log_records::count_changes(before, &m[..IMAGE_WORDS], low, high);
    let bytes = log_records::record_bytes(k);
    if log.len() < used || log.len() - used < bytes {
        copy(&mut m[..IMAGE_WORDS], before);
        return Err(Stop::LogFull);
    }
    log_records::put_record(log, used, before, &m[..IMAGE_WORDS], low, high, k);
    Ok(LoggedStep {
        extent: after,
        bytes,
    })
}

// Takes rules one by one from the state in the memory, of which `before` is a copy, with a record for each.
fn log_steps(
    file: &[u8],
    m: &mut [u32],
    before: &mut [u32],
    allowed: u64,
    log: &mut [u8],
    used: usize,
) -> Logged
    requires { HoldsFit file.now m.old × (size ≤ length m.old) × (before.old ≡ take size m.old) }
    ensures { (s : State) (R : List ℕ) → m.old ≡ image s ++ R → Fit (program_of file.now) s → Stops 0 (log_of (program_of file.now) allowed s log.old used) result.stop result.steps result.used m.new R log.new }
{
    let mut extent = extent_of(m);
    let mut next = used;
    let mut steps = 0;
    while steps < allowed {
        match log_step(file, m, before, extent, log, next) {
            Ok(taken) => {
                extent = taken.extent;
                next += taken.bytes;
                steps += 1;
            }
            Err(stop) => {
                return Logged {
                    stop,
                    steps,
                    used: next,
                };
            }
        }
    }
    let ran = run_loop::run(file, m, 0);
    let outcome = ran.outcome;
    Logged {
        stop: Stop::Ended(outcome),
        steps,
        used: next,
    }
}

// The same with room of its own for the copy.
fn log_run(file: &[u8], m: &mut [u32], allowed: u64, log: &mut [u8], used: usize) -> Logged
    requires { HoldsFit file.now m.old × (size ≤ length m.old) }
    ensures { (s : State) (R : List ℕ) → m.old ≡ image s ++ R → Fit (program_of file.now) s → Stops 0 (log_of (program_of file.now) allowed s log.old used) result.stop result.steps result.used m.new R log.new }
{
    let mut before = [0u32; IMAGE_WORDS];
    copy(&mut before, &m[..IMAGE_WORDS]);
    log_steps(file, m, &mut before, allowed, log, used)
}

// Runs the file's procedure in the memory for so many steps and logs each: questions 1 to 16, and where all pass, rules of the machine.
pub fn run_logged(
    file: &[u8],
    m: &mut [u32],
    allowed: u64,
    log: &mut [u8],
    used: usize,
) -> Result<Logged, Refusal>
    ensures answer { result ≡ log_reply_of (log_answer file.now m.old allowed log.old used) }
    ensures small { SmallLogReply result }
    ensures memory { m.new ≡ log_memory file.now m.old allowed log.old used }
    ensures log { log.new ≡ log_after file.now m.old allowed log.old used }
{
    entry_memory::check_memory(file, m)?;
    Ok(log_run(file, m, allowed, log, used))
}

// Goes back by the last record, if that leads to a fit state whose one step leads to this memory.
fn go_back(file: &[u8], m: &mut [u32], log: &[u8], used: usize) -> bool
    requires { HoldsFit file.now m.old × (size ≤ length m.old) × (has_record log.now used ≡ true) }
    ensures answer { result ≡ back_to (program_of file.now) m.old log.now used }
    ensures memory { m.new ≡ went_back result m.old log.now used }
{
    let mut before = [0u32; IMAGE_WORDS];
    copy(&mut before, &m[..IMAGE_WORDS]);
    restore(log, used, &mut before);
    if !entry_memory::holds_fit(file, &before) {
        return false;
    }
    let ran = run_loop::run(file, &mut before, 1);
    if ran.steps == 0 || !is_same(&before, &m[..IMAGE_WORDS]) {
        return false;
    }
    restore(log, used, &mut m[..IMAGE_WORDS]);
    true
}

// Takes the state in the memory one step back: questions 1 to 16 and 18, and where all pass, the state before the last record's step.
pub fn step_back(file: &[u8], m: &mut [u32], log: &[u8], used: usize) -> Result<usize, Refusal>
    ensures answer { result ≡ back_reply_of (back_answer file.now m.old log.now used) }
    ensures small { SmallBackReply result }
    ensures memory { m.new ≡ back_memory file.now m.old log.now used }
{
    entry_memory::check_memory(file, m)?;
    let bytes = last_bytes(log, used);
    if bytes == 0 || !go_back(file, m, log, used) {
        return Err(Refusal::whole(18));
    }
    Ok(used - bytes)
}
