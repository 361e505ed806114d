// One step of a running state in lent memory: the rule by the control, the top frame and the node's kind.
#![tactic(auto)]

mod statements;

ghost use Rattle.std.specs.Prelude.{◌≡◌, true, false, List, [], ◌∷◌, ◌++◌, ℕ, suc, ◌+◌, ◌*◌, ◌-◌, ◌≤◌, ◌<◌, length, get_or};
ghost use Rattle.spec_image.specs.Sizes.{caller_room, frame_size, frame_room, frames_at, size, slots_from, slot_room};
ghost use Rattle.records.specs.Fields.{edition_of, params_of, kind_at, a_at, b_at};
ghost use Rattle.records.specs.Parts.{part_of};
ghost use Rattle.spec_language.specs.Sorts.{is_expression};
ghost use Rattle.spec_language.specs.KindLists.{is_constant};
ghost use Rattle.spec_language.specs.Check.{accepted, check_of};
ghost use Rattle.spec_machine.specs.Values as values;
ghost use Rattle.spec_machine.specs.Program as program;
ghost use Rattle.spec_machine.specs.Machine as machine;
ghost use Rattle.spec_machine.specs.Machine.{RunEnv, Frame, Saved, running, reach_l};
ghost use Rattle.spec_machine.specs.Next as next;
ghost use Rattle.spec_machine.specs.Fit.{Fit};
ghost use Rattle.spec_machine.specs.File.{look_at, program_of};
ghost use Rattle.spec_image.specs.Image.{saved_frames};
ghost use Rattle.spec_image.specs.Core.{core};
ghost use Rattle.state_words.specs.Meaning.{value_is, control_is};
ghost use Rattle.run_rules.specs.StepsTo.{Rest, Describes, Bounds, Called, Cleared, StepsTo, Holding, HoldingTop};
ghost use Rattle.records.specs.Starts.{Starts};
ghost use Rattle.run_step.specs.StepsBy.{IsInt, IsTruth, Node, AtFitState, StepsBy};

use arith::Applied;
use records::format::MOST_FUNCTIONS;
use records::nodes::{a_at, b_at, kind_at, prior};
use records::wide;
use run_rules::{Registers, Stepped};
use state_stack::top::Top;
use state_words::layout::{FRAME_AND, FRAME_CALL, FRAME_OPERATOR, IMAGE_WORDS, SLOTS};
use state_words::{Control, Value};

// The next operand of the top frame, which has y values and z nodes waiting.
fn next_operand(part: &[u8], m: &mut [u32], h: Registers, y: u32, z: u32, v: Value) -> Stepped
    requires bounds { Bounds h m.old × (1 ≤ h.frames) × (y < 8) × (1 ≤ z) }
    requires inside { 12 * get_or m.old (frames_at + (h.under + (h.frames - 1)) * frame_size + (slots_from + y * 2)) 0 + 12 ≤ length part.now }
    ensures { (s : List ℕ) (α : RunEnv) (f : ℕ) (η : List values.Value) (g : program.Operation) (vs : List values.Value) (e : ℕ) (ns : List ℕ) (K : List Frame) (A : List Saved) (R : Rest) → m.old ≡ core f η (machine.gather g vs (e ∷ ns) ∷ K) A ++ R α → Describes s h f (machine.gather g vs (e ∷ ns) ∷ K) A → length vs + suc (length ns) ≤ slot_room → y ≡ length vs → z ≡ suc (length ns) → StepsTo s result m.old m.new R (running (reach_l e (look_at part.now e)) α f η (machine.gather g (vs ++ (value_is v ∷ [])) ns ∷ K) A) }
{
    let frames = h.frames - 1;
    let e = state_words::frames::frame_word(m, h.under + frames, SLOTS + y as usize * 2);
    run_rules::supply(m, h, y, z - 1, v, run_rules::gathering::reach(part, e))
}

// Ends the run by an exception, with all words of the state zero.
fn raise(m: &mut [u32], exception: Stepped) -> Stepped
    requires { size ≤ length m.old }
    ensures { (result ≡ exception) × Cleared m.old m.new }
{
    run_rules::calling::clear(m, IMAGE_WORDS);
    exception
}

// Applies operator o to the operand in the top frame and the one at hand.
fn operate(file: &[u8], m: &mut [u32], h: Registers, o: u32, v: Value) -> Stepped
    requires bounds { Bounds h m.old × (1 ≤ h.frames) × (o < 16) × (12 ≤ length file.now) }
    requires ints { IsInt v × (get_or m.old (frames_at + (h.under + (h.frames - 1)) * frame_size + (slots_from + 0 * 2)) 0 ≡ 1) }
    ensures { (α : RunEnv) (f : ℕ) (η : List values.Value) (a b : ℕ) (K : List Frame) (A : List Saved) (R : Rest) → m.old ≡ core f η (machine.gather (program.op o) (values.int a ∷ []) [] ∷ K) A ++ R α → Describes file.now h f (machine.gather (program.op o) (values.int a ∷ []) [] ∷ K) A → value_is v ≡ values.int b → StepsBy file.now result m.old m.new R (next.settle α f η K A (values.result (edition_of file.now) o a b)) }
{
    let Value::Int(b) = v else { unreachable!() };
    let frames = h.frames - 1;
    let Value::Int(a) = state_words::frames::slot_value(m, h.under + frames, 0) else {
        unreachable!()
    };
    match arith::apply(file, o as u8, a, b) {
        Applied::Int(word) => run_rules::take_off(m, h, Control::Int(word)),
        Applied::Truth(truth) => run_rules::take_off(m, h, Control::Truth(truth)),
        Applied::Arith => raise(m, Stepped::Arith),
    }
}

// Takes the top frame off, and goes on by the bool at hand.
fn choose(m: &mut [u32], h: Registers, v: Value, yes: Control, no: Control) -> Stepped
    requires { Bounds h m.old × (1 ≤ h.frames) × IsTruth v }
    ensures { (s : List ℕ) (p q : machine.Rule) → HoldingTop s m.old h (λ α f η fr K A R. StepsBy s result m.old m.new R (next.on_truth (value_is v) (next.goes p (running (control_is yes) α f η K A)) (next.goes q (running (control_is no) α f η K A)))) }
{
    let Value::Truth(truth) = v else {
        unreachable!()
    };
    if truth {
        run_rules::take_off(m, h, yes)
    } else {
        run_rules::take_off(m, h, no)
    }
}

// Goes on after an assert that holds, and ends the run where it does not.
fn affirm(m: &mut [u32], h: Registers, v: Value) -> Stepped
    requires { Bounds h m.old × (1 ≤ h.frames) × IsTruth v }
    ensures { (s : List ℕ) (p q : machine.Rule) → HoldingTop s m.old h (λ α f η fr K A R. StepsBy s result m.old m.new R (next.on_truth (value_is v) (next.goes p (running (machine.exec program.Ref.nop) α f η K A)) (next.goes q (machine.exception machine.abort)))) }
{
    let Value::Truth(truth) = v else {
        unreachable!()
    };
    if truth {
        run_rules::take_off(m, h, Control::Exec(0))
    } else {
        raise(m, Stepped::Abort)
    }
}

// Leaves the current function with a value.
fn depart(
    file: &[u8],
    starts: &[usize; MOST_FUNCTIONS],
    m: &mut [u32],
    h: Registers,
    v: Value,
) -> Stepped
    requires bounds { Bounds h m.old × Starts file.now starts.now }
    requires outermost { h.callers ≡ 0 → IsInt v }
    requires called { 1 ≤ h.callers → Called file.now h m.old }
    ensures { Holding file.now m.old h (λ α f η K A R. StepsBy file.now result m.old m.new R (next.leaving α (value_is v) A)) }
{
    if h.callers == 0 {
        let Value::Int(word) = v else { unreachable!() };
        return run_rules::calling::leave_main(m, h, word);
    }
    run_rules::calling::leave(file, starts, m, h, v)
}

// Evaluates the call at node i.
fn call(
    file: &[u8],
    starts: &[usize; MOST_FUNCTIONS],
    part: &[u8],
    m: &mut [u32],
    h: Registers,
    i: usize,
) -> Stepped
    requires { Bounds h m.old × Starts file.now starts.now × Node file.now part.now i × (kind_at part.now i ≡ 5) }
    ensures { Holding file.now m.old h (λ α f η K A R. part.now ≡ part_of file.now f → params_of file.now (b_at part.now i) ≡ a_at part.now i → StepsBy file.now result m.old m.new R (next.opens (program_of file.now) (look_at part.now i) α f η K A)) }
{
    let g = b_at(part, i);
    let k = wide(a_at(part, i));
    if k == 0 {
        return run_rules::calling::enter_none(file, starts, m, h, g);
    }
    run_rules::gathering::gather(part, m, h, FRAME_CALL, g, k, i - 1)
}

// Evaluates the expression at node i; by kind.
fn open(
    file: &[u8],
    starts: &[usize; MOST_FUNCTIONS],
    part: &[u8],
    m: &mut [u32],
    h: Registers,
    i: u32,
) -> Stepped
    requires { Bounds h m.old × Starts file.now starts.now × Node file.now part.now i × (is_expression (kind_at part.now i) ≡ true) × (is_constant (kind_at part.now i) ≡ false) }
    ensures { Holding file.now m.old h (λ α f η K A R. check_of file.now ≡ accepted → part.now ≡ part_of file.now f → Fit (program_of file.now) (running (machine.eval i) α f η K A) → StepsBy file.now result m.old m.new R (next.opens (program_of file.now) (look_at part.now i) α f η K A)) }
{
    let at = i as usize;
    let kind = kind_at(part, at);
    match kind {
        2 => {
            let x = b_at(part, at) as usize;
            let callers = h.callers;
            let v = state_stack::variable(m, callers, x);
            Stepped::Went(Control::from(v), h)
        }
        3 => run_rules::gathering::gather(
            part,
            m,
            h,
            FRAME_OPERATOR,
            wide(a_at(part, at)),
            2,
            at - 1,
        ),
        4 => {
            let last = at - 1;
            let first = prior(part, last);
            run_rules::lay(
                m,
                h,
                FRAME_AND,
                last as u32,
                0,
                run_rules::gathering::reach(part, first as u32),
            )
        }
        5 => call(file, starts, part, m, h, at),
        _ => unreachable!(),
    }
}

// Gives a value to the top frame; by frame.
fn give(
    file: &[u8],
    starts: &[usize; MOST_FUNCTIONS],
    part: &[u8],
    m: &mut [u32],
    h: Registers,
    v: Value,
) -> Stepped
    requires { AtFitState file.now starts.now (machine.val (value_is v)) h m.old × (part.now ≡ part_of file.now h.function) × (size ≤ length m.old) }
    ensures { HoldingTop file.now m.old h (λ α f η fr K A R. Fit (program_of file.now) (running (machine.val (value_is v)) α f η (fr ∷ K) A) → StepsBy file.now result m.old m.new R (next.give (program_of file.now) (value_is v) α f η (fr ∷ K) A)) }
{
    let frames = h.frames - 1;
    let top = state_stack::top::top_frame(m, h.under + frames);
    match top {
        Top::Operator(o, y, z) => {
            if z == 0 {
                return operate(file, m, h, o, v);
            }
            next_operand(part, m, h, y, z, v)
        }
        Top::Call(g, y, z) => {
            if z == 0 {
                return run_rules::calling::enter(file, starts, m, h, g, y as usize, v);
            }
            next_operand(part, m, h, y, z, v)
        }
        Top::And(l) => {
            let c = run_rules::gathering::reach(part, l);
            choose(m, h, v, c, Control::Truth(false))
        }
        Top::Wait(r) => unreachable!(),
        Top::Store(x) => run_rules::assign(m, h, x, v),
        Top::Branch(a, b) => choose(m, h, v, Control::Exec(a), Control::Exec(b)),
        Top::Leave => depart(file, starts, m, h, v),
        Top::Assert => affirm(m, h, v),
        Top::Discard => run_rules::take_off(m, h, Control::Exec(0)),
    }
}

// One step of a running state: the control and the registers are handed on, and the rest is in the memory.
pub fn step(
    file: &[u8],
    starts: &[usize; MOST_FUNCTIONS],
    m: &mut [u32],
    c: Control,
    h: Registers,
) -> Stepped
    requires { AtFitState file.now starts.now (control_is c) h m.old × (size ≤ length m.old) }
    ensures { Holding file.now m.old h (λ α f η K A R. Fit (program_of file.now) (running (control_is c) α f η K A) → StepsBy file.now result m.old m.new R (next.next (program_of file.now) (running (control_is c) α f η K A))) }
{
    let a = h.start;
    let e = a + 12 * h.count;
    let part = &file[a..e];
    let v = match c {
        Control::Nothing => Value::Nothing,
        Control::Int(word) => Value::Int(word),
        Control::Truth(truth) => Value::Truth(truth),
        Control::Eval(i) => return open(file, starts, part, m, h, i),
        Control::Exec(r) => return statements::execute(part, m, h, r),
    };
    give(file, starts, part, m, h, v)
}
