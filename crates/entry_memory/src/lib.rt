// The entry points that only read lent memory: the memory check and look-up.
#![tactic(auto)]

ghost use Rattle.std.specs.Prelude.{◌≡◌, true, Ok, ◌≤◌, length};
ghost use Rattle.spec_language.specs.Check.{accepted, check_of};
ghost use Rattle.check_file.specs.Answers.{says, Small};
ghost use Rattle.spec_machine.specs.Run.{look_up};
ghost use Rattle.spec_machine.specs.File.{program_of};
ghost use Rattle.spec_image.specs.Decode.{state_of};
ghost use Rattle.spec_image.specs.Memory.{fit_words};
ghost use Rattle.spec_image.specs.Sizes.{size};
ghost use Rattle.state_words.specs.Meaning.{value_is};
ghost use Rattle.fit_state.specs.HoldsState.{HoldsState};
ghost use Rattle.spec_answers.specs.Answers.{memory_answer, granted, is_present, value_or, look_answer};
ghost use Rattle.entry_memory.specs.Looks.{look_of, SmallLook};

use check_file::Refusal;
use state_words::Value;
use state_words::layout::{IMAGE_WORDS, TAG_RUNNING};

// What look-up tells of a variable: nothing, an int or a bool.
#[derive(Clone, Copy)]
pub enum Look {
    Nothing,
    Int(i32),
    Truth(bool),
}

// Whether the first 16,384 words hold the image of a state that is fit for the file's program.
pub fn holds_fit(file: &[u8], m: &[u32]) -> bool
    requires { (check_of file.now ≡ accepted) × (size ≤ length m.now) }
    ensures { result ≡ fit_words (program_of file.now) m.now }
{
    if !fit_image::holds_image(m) {
        return false;
    }
    fit_state::fits(file, m)
}

// Checks a memory: questions 1 to 16.
pub fn check_memory(file: &[u8], m: &[u32]) -> Result<(), Refusal>
    ensures answer { says result ≡ memory_answer file.now m.now }
    ensures small { Small result }
{
    check_file::check(file)?;
    if m.len() < IMAGE_WORDS {
        return Err(Refusal::whole(15));
    }
    if !holds_fit(file, m) {
        return Err(Refusal::whole(16));
    }
    Ok(())
}

// Whether the current activation of the state in the memory has variable x.
fn has_variable(m: &[u32], x: u32) -> bool
    requires { (size ≤ length m.now) × HoldsState m.now }
    ensures { result ≡ is_present (look_up (state_of m.now) x) }
{
    if m[0] != TAG_RUNNING {
        return false;
    }
    let a = m[2] as usize - 1;
    x < state_words::activations::activation_word(m, a, 2)
}

// What the current activation's variable x holds.
fn value_in(m: &[u32], x: u32) -> Value
    requires { (size ≤ length m.now) × HoldsState m.now × (is_present (look_up (state_of m.now) x) ≡ true) }
    ensures { value_is result ≡ value_or (look_up (state_of m.now) x) }
{
    let a = m[2] as usize - 1;
    state_words::activations::variable(m, a, x as usize)
}

// What is told of a value.
fn tell(v: Value) -> Look
    ensures { Ok result ≡ look_of (granted (value_is v)) }
{
    match v {
        Value::Nothing => Look::Nothing,
        Value::Int(n) => {
            let z = arith::signed(n);
            Look::Int(z)
        }
        Value::Truth(b) => Look::Truth(b),
    }
}

// Looks up variable x of the current activation: questions 1 to 17, and where all pass, what it holds.
pub fn look_up(file: &[u8], m: &[u32], x: u32) -> Result<Look, Refusal>
    ensures answer { result ≡ look_of (look_answer file.now m.now x) }
    ensures small { SmallLook result }
{
    check_memory(file, m)?;
    if !has_variable(m, x) {
        return Err(Refusal::whole(17));
    }
    Ok(tell(value_in(m, x)))
}
