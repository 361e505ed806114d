// The entry point that runs the procedure in a memory.
#![tactic(auto)]

ghost use Rattle.std.specs.Prelude.{◌≡◌};
ghost use Rattle.spec_answers.specs.Answers.{run_answer, run_memory};
ghost use Rattle.entry_run.specs.Replies.{reply_of, SmallReply};

use check_file::Refusal;
use run_loop::Ran;

// Runs the file's procedure in the memory for so many steps: questions 1 to 16, and where all pass, rules of the machine.
pub fn run(file: &[u8], m: &mut [u32], allowed: u64) -> Result<Ran, Refusal>
    ensures answer { result ≡ reply_of (run_answer file.now m.old allowed) }
    ensures small { SmallReply result }
    ensures memory { m.new ≡ run_memory file.now m.old allowed }
{
    entry_memory::check_memory(file, m)?;
    Ok(run_loop::run(file, m, allowed))
}
