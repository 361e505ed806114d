// The entry point that starts a procedure in a memory.
#![tactic(auto)]

ghost use Rattle.std.specs.Prelude.{◌≡◌, drop, length, ◌++◌, ◌≤◌};
ghost use Rattle.check_file.specs.Answers.{says, Small};
ghost use Rattle.spec_image.specs.Image.{image};
ghost use Rattle.spec_image.specs.Sizes.{size};
ghost use Rattle.spec_machine.specs.Machine.{main_call};
ghost use Rattle.spec_answers.specs.Answers.{start_answer, start_memory};

use check_file::Refusal;
use state_words::layout::{IMAGE_WORDS, TAG_MAIN};

// The image of main() with nothing waiting, written over the first n words, which are 16,384.
fn write_start(m: &mut [u32], n: usize)
    requires { (n ≡ size) × (n ≤ length m.old) }
    ensures { m.new ≡ image main_call ++ drop size m.old }
{
    words::zero_at(m, 0, n);
    m[0] = TAG_MAIN;
}

// Starts a procedure: questions 1 to 15, and where all pass, main() with nothing waiting in the memory.
pub fn start(file: &[u8], m: &mut [u32]) -> Result<(), Refusal>
    ensures answer { says result ≡ start_answer file.now m.old }
    ensures memory { m.new ≡ start_memory file.now m.old }
    ensures small { Small result }
{
    check_file::check(file)?;
    if m.len() < IMAGE_WORDS {
        return Err(Refusal::whole(15));
    }
    write_start(m, IMAGE_WORDS);
    Ok(())
}
