// A run in lent memory: the head of the image is taken out into registers, kept there while rules are taken, and put back at the end.
#![tactic(auto)]

ghost use Rattle.std.specs.Prelude.{◌≡◌, List, ◌++◌, ℕ, ◌+◌, ◌-◌, ◌≤◌, ◌<◌, length};
ghost use Rattle.std.proofs.Math.Option.{none};
ghost use Rattle.spec_image.specs.Sizes.{size};
ghost use Rattle.spec_machine.specs.Values as values;
ghost use Rattle.spec_machine.specs.Program.{Program};
ghost use Rattle.spec_machine.specs.Machine as machine;
ghost use Rattle.spec_machine.specs.Machine.{RunEnv, Frame, Saved, State, running};
ghost use Rattle.spec_machine.specs.Run.{raised, run_of};
ghost use Rattle.spec_machine.specs.Fit.{Entry, Fit};
ghost use Rattle.spec_machine.specs.File.{program_of};
ghost use Rattle.spec_image.specs.Image.{env_part, exception_tag, image};
ghost use Rattle.spec_image.specs.Layout.{env_words};
ghost use Rattle.state_words.specs.Meaning.{control_is};
ghost use Rattle.run_rules.specs.StepsTo.{Bounds};
ghost use Rattle.run_step.specs.StepsBy.{AtFitState};
ghost use Rattle.run_loop.specs.Runs.{outcome_of, HoldsFit, AtMain, AtRunning, Ends, Emptied, Wiped, HoldingState, Rests};

use arith::signed;
use records::format::MOST_FUNCTIONS;
use records::starts::starts_of;
use records::{count_of, vars_of, wide};
use run_rules::{Registers, Stepped};
use state_words::Control;
use state_words::layout::{
    FORM_BOOL, FORM_EVAL, FORM_EXEC, FORM_INT, FORM_NOTHING, TAG_ABORT, TAG_ARITH, TAG_MAIN,
    TAG_RETURNED, TAG_RUNNING, TAG_VALUE,
};

// How a run ended.
#[derive(Clone, Copy)]
pub enum Outcome {
    Value(i32),
    Arith,
    Abort,
    Spent,
    Full,
}

// Its outcome, and how many rules were taken.
#[derive(Clone, Copy)]
pub struct Ran {
    pub outcome: Outcome,
    pub steps: u64,
}

// Puts the registers of a running state back into the head of the image.
fn put_back(m: &mut [u32], c: Control, h: Registers)
    requires { Bounds h m.old }
    ensures { (s : List ℕ) → HoldingState s m.old h (λ α f η K A R. m.new ≡ image (running (control_is c) α f η K A) ++ R) }
{
    let a = h.callers;
    let callers = h.callers as u32;
    let frames = h.frames as u32;
    match c {
        Control::Nothing => state_stack::head::store_head(m, a, callers, frames, FORM_NOTHING, 0),
        Control::Int(word) => state_stack::head::store_head(m, a, callers, frames, FORM_INT, word),
        Control::Truth(truth) => state_stack::head::store_head(
            m,
            a,
            callers,
            frames,
            FORM_BOOL,
            state_words::bit_of(truth),
        ),
        Control::Eval(i) => state_stack::head::store_head(m, a, callers, frames, FORM_EVAL, i),
        Control::Exec(r) => state_stack::head::store_head(m, a, callers, frames, FORM_EXEC, r),
    }
}

// Puts the head of a state without activations into words that are zero before its environment.
fn put_rest(m: &mut [u32], tag: u32, word: u32)
    requires { size ≤ length m.old }
    ensures { (s : State) (R : List ℕ) → Emptied m.old (env_part s ++ R) → Rests s tag word → m.new ≡ image s ++ R }
{
    m[0] = tag;
    m[1] = word;
}

// The end of a run whose entry function has returned an int, after so many steps.
fn finish(m: &mut [u32], word: u32, steps: u64, allowed: u64) -> Ran
    requires { (size ≤ length m.old) × (steps ≤ allowed) }
    ensures { (P : Program) (α : RunEnv) (R : List ℕ) → Entry P α.entry → Emptied m.old (env_words α ++ R) → Ends steps (run_of P (allowed - steps) (machine.returned α word)) result.outcome result.steps m.new R }
{
    if steps < allowed {
        put_rest(m, TAG_VALUE, word);
        return Ran {
            outcome: Outcome::Value(signed(word)),
            steps: steps + 1,
        };
    }
    put_rest(m, TAG_RETURNED, word);
    Ran {
        outcome: Outcome::Spent,
        steps,
    }
}

// The end of a run by an exception, with its tag.
fn fail(m: &mut [u32], tag: u32, outcome: Outcome, steps: u64) -> Ran
    requires { size ≤ length m.old }
    ensures { (result.outcome ≡ outcome) × (result.steps ≡ steps) × ((x : machine.Exception) (R : List ℕ) → tag ≡ exception_tag x → Wiped m.old R → m.new ≡ image (machine.exception x) ++ R) }
{
    put_rest(m, tag, 0);
    Ran { outcome, steps }
}

// The end of a run that stops at a running state.
fn stop(m: &mut [u32], c: Control, h: Registers, outcome: Outcome, steps: u64) -> Ran
    requires { Bounds h m.old }
    ensures { (result.outcome ≡ outcome) × (result.steps ≡ steps) × ((s : List ℕ) → HoldingState s m.old h (λ α f η K A R. m.new ≡ image (running (control_is c) α f η K A) ++ R)) }
{
    put_back(m, c, h);
    Ran { outcome, steps }
}

// Takes rules from a running state on, where some were taken before it.
fn go(
    file: &[u8],
    starts: &[usize; MOST_FUNCTIONS],
    m: &mut [u32],
    from: Control,
    head: Registers,
    taken: u64,
    allowed: u64,
) -> Ran
    requires { AtFitState file.now starts.now (control_is from) head m.old × (size ≤ length m.old) × (taken ≤ allowed) }
    ensures { HoldingState file.now m.old head (λ α f η K A R. Fit (program_of file.now) (running (control_is from) α f η K A) → Ends taken (run_of (program_of file.now) (allowed - taken) (running (control_is from) α f η K A)) result.outcome result.steps m.new R) }
{
    let mut c = from;
    let mut h = head;
    for steps in taken..allowed {
        match run_step::step(file, starts, m, c, h) {
            Stepped::Went(next, on) => {
                c = next;
                h = on;
            }
            Stepped::Full => return stop(m, c, h, Outcome::Full, steps),
            Stepped::Returned(word) => return finish(m, word, steps + 1, allowed),
            Stepped::Arith => return fail(m, TAG_ARITH, Outcome::Arith, steps + 1),
            Stepped::Abort => return fail(m, TAG_ABORT, Outcome::Abort, steps + 1),
        }
    }
    stop(m, c, h, Outcome::Spent, allowed)
}

// A run from the int that the entry function has returned.
fn conclude(m: &mut [u32], word: u32, allowed: u64) -> Ran
    requires { size ≤ length m.old }
    ensures { (P : Program) (α : RunEnv) (R : List ℕ) → Entry P α.entry → m.old ≡ image (machine.returned α word) ++ R → Ends 0 (run_of P allowed (machine.returned α word)) result.outcome result.steps m.new R }
{
    m[0] = 0;
    m[1] = 0;
    finish(m, word, 0, allowed)
}

// A run from main() with nothing waiting.
fn begin(file: &[u8], m: &mut [u32], allowed: u64) -> Ran
    requires { AtMain file.now m.old × (size ≤ length m.old) }
    ensures { (α : RunEnv) (R : List ℕ) → m.old ≡ image (machine.calling α none) ++ R → Fit (program_of file.now) (machine.calling α none) → Ends 0 (run_of (program_of file.now) allowed (machine.calling α none)) result.outcome result.steps m.new R }
{
    if allowed == 0 {
        return Ran {
            outcome: Outcome::Spent,
            steps: 0,
        };
    }
    let starts = starts_of(file);
    let start = starts[0];
    let count = count_of(file, 0);
    m[0] = 0;
    m[1] = 0;
    state_stack::head::enter_main(m, 0, wide(vars_of(file, 0)));
    let c = Control::Exec(run_rules::calling::body_of(file, start, count));
    let h = Registers {
        function: 0,
        start,
        count,
        callers: 0,
        frames: 0,
        under: 0,
    };
    go(file, &starts, m, c, h, 1, allowed)
}

// A run from a running state: its head is taken out of the memory.
fn proceed(file: &[u8], m: &mut [u32], allowed: u64) -> Ran
    requires { AtRunning file.now m.old × (size ≤ length m.old) }
    ensures { (c : machine.Control) (α : RunEnv) (f : ℕ) (η : List values.Value) (K : List Frame) (A : List Saved) (R : List ℕ) → m.old ≡ image (running c α f η K A) ++ R → Fit (program_of file.now) (running c α f η K A) → Ends 0 (run_of (program_of file.now) allowed (running c α f η K A)) result.outcome result.steps m.new R }
{
    let starts = starts_of(file);
    let callers = m[2] as usize - 1;
    let c = state_words::control_of(m[3], m[4]);
    let function = state_words::activations::activation_word(m, callers, 0) as usize;
    let frames = state_words::activations::activation_word(m, callers, 1) as usize;
    let total = state_words::activations::frames_held(m, callers + 1);
    let h = Registers {
        function,
        start: starts[function],
        count: count_of(file, function),
        callers,
        frames,
        under: total - frames,
    };
    state_stack::head::clear_head(m, callers);
    go(file, &starts, m, c, h, 0, allowed)
}

// Runs the state in the memory, up to so many rules.
pub fn run(file: &[u8], m: &mut [u32], allowed: u64) -> Ran
    requires { HoldsFit file.now m.old × (size ≤ length m.old) }
    ensures { (s : State) (R : List ℕ) → m.old ≡ image s ++ R → Fit (program_of file.now) s → Ends 0 (run_of (program_of file.now) allowed s) result.outcome result.steps m.new R }
{
    let tag = m[0];
    let word = m[1];
    match tag {
        TAG_MAIN => begin(file, m, allowed),
        TAG_RUNNING => proceed(file, m, allowed),
        TAG_RETURNED => conclude(m, word, allowed),
        TAG_VALUE => Ran {
            outcome: Outcome::Value(signed(word)),
            steps: 0,
        },
        TAG_ARITH => Ran {
            outcome: Outcome::Arith,
            steps: 0,
        },
        _ => Ran {
            outcome: Outcome::Abort,
            steps: 0,
        },
    }
}
