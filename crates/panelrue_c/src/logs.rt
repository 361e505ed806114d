// The entry points that keep a log, for a host.
ghost use Rattle.std.specs.Prelude.{◌≡◌, Ok};
ghost use Rattle.spec_log.specs.Answers.{log_answer, log_memory, log_after, back_answer, back_memory};
ghost use Rattle.entry_log.specs.Replies.{log_reply_of, back_reply_of};
ghost use Rattle.panelrue_c.specs.HostLogs.{stop_number, stop_word, log_number, log_words, back_number, back_words};

use entry_log::{Logged, Stop};

// The number of a logged run's stop.
fn stop_number(stop: Stop) -> u64
    ensures { result ≡ stop_number stop }
{
    match stop {
        Stop::Ended(outcome) => crate::outcome_number(outcome),
        Stop::LogFull => 5,
    }
}

// The word of its int.
fn stop_word(stop: Stop) -> u64
    ensures { result ≡ stop_word stop }
{
    match stop {
        Stop::Ended(outcome) => crate::outcome_word(outcome),
        Stop::LogFull => 0,
    }
}

// Outcome, int, steps and used length for the host, where it has room for four words.
fn tell_log(answer: &mut [u64], r: Logged)
    ensures { answer.new ≡ log_words (Ok r) answer.old }
{
    if answer.len() < 4 {
        return;
    }
    let stop = r.stop;
    let a = stop_number(stop);
    let b = stop_word(stop);
    answer[0] = a;
    answer[1] = b;
    answer[2] = r.steps;
    answer[3] = r.used as u64;
}

// Runs the procedure in the memory for at most so many steps with a record for each in the log, where 0 is answered; a refusal leaves memory,
// log and answer as they were.
#[unsafe(no_mangle)]
pub extern "C" fn panelrue_run_logged(
    file: &[u8],
    memory: &mut [u32],
    allowance: u64,
    log: &mut [u8],
    used: usize,
    answer: &mut [u64],
) -> u64
    ensures number { result ≡ log_number (log_reply_of (log_answer file.now memory.old allowance log.old used)) }
    ensures memory { memory.new ≡ log_memory file.now memory.old allowance log.old used }
    ensures log { log.new ≡ log_after file.now memory.old allowance log.old used }
    ensures told { answer.new ≡ log_words (log_reply_of (log_answer file.now memory.old allowance log.old used)) answer.old }
{
    match entry_log::run_logged(file, memory, allowance, log, used) {
        Ok(r) => {
            tell_log(answer, r);
            0
        }
        Err(refusal) => crate::pack(refusal),
    }
}

// The used length for the host, where it has room for a word.
fn tell_back(answer: &mut [u64], used: usize)
    ensures { answer.new ≡ back_words (Ok used) answer.old }
{
    if answer.len() < 1 {
        return;
    }
    answer[0] = used as u64;
}

// Takes the memory one step back by the log's last record, where 0 is answered; a refusal leaves memory and answer as they were.
#[unsafe(no_mangle)]
pub extern "C" fn panelrue_step_back(
    file: &[u8],
    memory: &mut [u32],
    log: &[u8],
    used: usize,
    answer: &mut [u64],
) -> u64
    ensures number { result ≡ back_number (back_reply_of (back_answer file.now memory.old log.now used)) }
    ensures memory { memory.new ≡ back_memory file.now memory.old log.now used }
    ensures told { answer.new ≡ back_words (back_reply_of (back_answer file.now memory.old log.now used)) answer.old }
{
    match entry_log::step_back(file, memory, log, used) {
        Ok(rest) => {
            tell_back(answer, rest);
            0
        }
        Err(refusal) => crate::pack(refusal),
    }
}
