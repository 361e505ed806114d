// Statements executed, each by its reference: the one that waits, one of a node, and the if and the seq of a while.
ghost use Rattle.std.specs.Prelude.{◌≡◌, true, List, ◌∷◌, ◌++◌, ℕ, ◌+◌, ◌*◌, ◌-◌, ◌≤◌, ◌<◌, length};
ghost use Rattle.records.specs.Format.{most_nodes, most_variables};
ghost use Rattle.records.specs.Fields.{kind_at, b_at};
ghost use Rattle.records.specs.Parts.{part_of};
ghost use Rattle.spec_language.specs.KindLists.{is_statement};
ghost use Rattle.spec_language.specs.Check.{accepted, check_of};
ghost use Rattle.spec_machine.specs.Values as values;
ghost use Rattle.spec_machine.specs.Program as program;
ghost use Rattle.spec_machine.specs.Machine as machine;
ghost use Rattle.spec_machine.specs.Machine.{RunEnv, Frame, wait, Saved, running};
ghost use Rattle.spec_machine.specs.Next as next;
ghost use Rattle.spec_machine.specs.Fit.{Fit};
ghost use Rattle.spec_machine.specs.File.{ref_at, form_at, see_at, program_of};
ghost use Rattle.spec_image.specs.Layout.{ref_word};
ghost use Rattle.spec_image.specs.Decode.{ref_of};
ghost use Rattle.spec_image.specs.Core.{core};
ghost use Rattle.run_rules.specs.StepsTo.{Rest, Describes, Bounds, StepsTo, Holding};
ghost use Rattle.run_step.specs.StepsBy.{in_loop, Executes, StepsBy};

use records::nodes::{b_at, kind_at, prior};
use records::wide;
use run_rules::{Registers, Stepped};
use state_words::layout::{FRAME_BRANCH, FRAME_STORE, FRAME_WAIT};
use state_words::{Control, Value};

// The word of the statement at node i; nop is one and the same.
fn ref_word_at(part: &[u8], i: usize) -> u32
    requires { (12 * i + 12 ≤ length part.now) × (i < most_nodes) }
    ensures { (result ≡ ref_word (ref_at part.now i)) × (ref_of result ≡ ref_at part.now i) }
{
    if kind_at(part, i) == 6 {
        0
    } else {
        1 + 3 * i as u32
    }
}

// Goes on with the statement that waits in the top frame.
fn resume(m: &mut [u32], h: Registers) -> Stepped
    requires { Bounds h m.old × (1 ≤ h.frames) }
    ensures { (s : List ℕ) (α : RunEnv) (f : ℕ) (η : List values.Value) (r : program.Ref) (K : List Frame) (A : List Saved) (R : Rest) → m.old ≡ core f η (wait r ∷ K) A ++ R α → Describes s h f (wait r ∷ K) A → StepsTo s result m.old m.new R (running (machine.exec r) α f η K A) }
{
    let frames = h.frames - 1;
    let word = state_words::frames::frame_word(m, h.under + frames, 1);
    run_rules::take_off(m, h, Control::Exec(word))
}

// Executes the statement at node i; by kind.
fn execute_node(part: &[u8], m: &mut [u32], h: Registers, i: u32) -> Stepped
    requires bounds { Bounds h m.old × (12 * i + 12 ≤ length part.now) × (i < most_nodes) × (0 < i) × (is_statement (kind_at part.now i) ≡ true) }
    requires variable { kind_at part.now i ≡ 9 → b_at part.now i < most_variables }
    ensures { (s : List ℕ) → Holding s m.old h (λ α f η K A R. check_of s ≡ accepted → part.now ≡ part_of s f → Fit (program_of s) (running (machine.exec (program.node i)) α f η K A) → StepsBy s result m.old m.new R (next.runs (program_of s) (form_at part.now i) α f η K A)) }
{
    let at = i as usize;
    let last = at - 1;
    let kind = kind_at(part, at);
    match kind {
        7 => {
            let first = prior(part, last);
            let word = ref_word_at(part, last);
            run_rules::lay(
                m,
                h,
                FRAME_WAIT,
                word,
                0,
                Control::Exec(ref_word_at(part, first)),
            )
        }
        8 => run_rules::lay(
            m,
            h,
            FRAME_STORE,
            b_at(part, at),
            0,
            run_rules::gathering::reach(part, last as u32),
        ),
        9 => run_rules::store_variable(
            m,
            h,
            b_at(part, at),
            Value::Nothing,
            Control::Exec(ref_word_at(part, last)),
        ),
        10 => {
            let first = prior(part, last);
            let condition = prior(part, first);
            let x = ref_word_at(part, first);
            let y = ref_word_at(part, last);
            run_rules::lay(
                m,
                h,
                FRAME_BRANCH,
                x,
                y,
                run_rules::gathering::reach(part, condition as u32),
            )
        }
        11 => Stepped::Went(Control::Exec(2 + 3 * i), h),
        12..=14 => run_rules::lay(
            m,
            h,
            wide(kind) - 5,
            0,
            0,
            run_rules::gathering::reach(part, last as u32),
        ),
        _ => unreachable!(),
    }
}

// Executes the if that the while at node w equals, or the seq in it.
fn execute_loop(part: &[u8], m: &mut [u32], h: Registers, w: u32, inner: bool) -> Stepped
    requires { Bounds h m.old × (12 * w + 12 ≤ length part.now) × (w < most_nodes) × (0 < w) }
    ensures { (s : List ℕ) → Holding s m.old h (λ α f η K A R. part.now ≡ part_of s f → kind_at part.now w ≡ 11 → StepsBy s result m.old m.new R (next.runs (program_of s) (see_at part.now (in_loop inner w)) α f η K A)) }
{
    let last = w as usize - 1;
    if inner {
        return run_rules::lay(
            m,
            h,
            FRAME_WAIT,
            1 + 3 * w,
            0,
            Control::Exec(ref_word_at(part, last)),
        );
    }
    let condition = prior(part, last);
    run_rules::lay(
        m,
        h,
        FRAME_BRANCH,
        3 + 3 * w,
        0,
        run_rules::gathering::reach(part, condition as u32),
    )
}

// Executes the statement of a word.
pub fn execute(part: &[u8], m: &mut [u32], h: Registers, r: u32) -> Stepped
    requires bounds { Bounds h m.old × Executes part.now (ref_of r) }
    requires waits { ref_of r ≡ program.Ref.nop → 1 ≤ h.frames }
    ensures { (s : List ℕ) → Holding s m.old h (λ α f η K A R. check_of s ≡ accepted → part.now ≡ part_of s f → Fit (program_of s) (running (machine.exec (ref_of r)) α f η K A) → StepsBy s result m.old m.new R (next.runs (program_of s) (see_at part.now (ref_of r)) α f η K A)) }
{
    if r == 0 {
        return resume(m, h);
    }
    let n = (r - 1) / 3;
    let form = (r - 1) % 3;
    match form {
        0 => execute_node(part, m, h, n),
        1 => execute_loop(part, m, h, n, false),
        _ => execute_loop(part, m, h, n, true),
    }
}
