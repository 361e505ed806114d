// The frames of an activation, one by one: whether each suits what comes down to it, and what it hands on.
#![tactic(auto)]

pub mod descent;
pub mod operands;
mod statements;
pub mod stored;

ghost use Rattle.std.specs.Prelude.{◌≡◌, true, false, ℕ, ◌+◌, get_or};
ghost use Rattle.varset.specs.Sets.{has};
ghost use Rattle.spec_machine.specs.Program.{Program, op, fn};
ghost use Rattle.spec_machine.specs.Machine.{Frame, and, check};
ghost use Rattle.spec_machine.specs.File.{program_of};
ghost use Rattle.spec_image.specs.Decode.{operands};
ghost use Rattle.state_words.specs.Meaning.{frame_at};
ghost use Rattle.fit_frames.specs.Slots.{slots_in};
ghost use Rattle.fit_frames.specs.Incoming.{incoming};
ghost use Rattle.fit_frames.specs.Meaning.{incoming_is, Steps, frame_in};

use crate::operands::{Masks, gathers, node_suits};
use crate::stored::StoredFrame;
use check_types::operator_type;
use fit_flow::KnownPart;
use records::format::{OPERATORS, TYPE_BOOL};
use records::{function_count, mask_of, params_of, result_of, wide};
use state_words::layout::{
    FRAME_AND, FRAME_ASSERT, FRAME_BRANCH, FRAME_CALL, FRAME_OPERATOR, FRAME_RETURN, FRAME_STORE,
    FRAME_WAIT,
};
use varset::VarSet;

// What comes down to a frame: the type of a value where one is given, the variables that have a value, whether something that returns has come.
#[derive(Clone, Copy)]
pub struct Received {
    pub given: Option<u8>,
    pub set: VarSet,
    pub come: bool,
}

// A value of a type handed on.
pub fn giving(set: VarSet, come: bool, kind: u8) -> Received
    ensures { incoming_is result ≡ incoming true kind (has set.0) come }
{
    Received {
        given: Some(kind),
        set,
        come,
    }
}

// No value handed on.
pub fn bare(set: VarSet, come: bool) -> Received
    ensures { incoming_is result ≡ incoming false 0 (has set.0) come }
{
    Received {
        given: None,
        set,
        come,
    }
}

// An operator's operands.
#[tactic(auto, unfolding(spec_image::specs::Decode::operands))]
fn operator_step(known: &KnownPart<'_>, frame: &StoredFrame<'_>, d: Received) -> Option<Received>
    ensures { Steps (program_of known.now.part.file.now) known.now.part.function d (operands (op (get_or frame.now.memory.now (frame_at frame.now.place + 1) 0)) (get_or frame.now.memory.now (frame_at frame.now.place + 2) 0) (get_or frame.now.memory.now (frame_at frame.now.place + 3) 0) (slots_in frame.now.memory.now frame.now.place)) result }
{
    let x = frame.word(1);
    let kind = d.given?;
    if OPERATORS as u32 <= x {
        return None;
    }
    let ints = Masks {
        bools: 0,
        arrays: 0,
        grids: 0,
    };
    if !gathers(known, frame, ints, 2, kind, d.set) {
        return None;
    }
    Some(giving(d.set, d.come, operator_type(x as u8)))
}

// A call's arguments.
#[tactic(auto, unfolding(spec_image::specs::Decode::operands))]
fn call_step(known: &KnownPart<'_>, frame: &StoredFrame<'_>, d: Received) -> Option<Received>
    ensures { Steps (program_of known.now.part.file.now) known.now.part.function d (operands (fn (get_or frame.now.memory.now (frame_at frame.now.place + 1) 0)) (get_or frame.now.memory.now (frame_at frame.now.place + 2) 0) (get_or frame.now.memory.now (frame_at frame.now.place + 3) 0) (slots_in frame.now.memory.now frame.now.place)) result }
{
    let g = frame.word(1) as usize;
    let file = known.part.file;
    let kind = d.given?;
    if function_count(file) <= g {
        return None;
    }
    let masks = Masks {
        bools: mask_of(file, g),
        arrays: 0,
        grids: 0,
    };
    let count = wide(params_of(file, g));
    if !gathers(known, frame, masks, count, kind, d.set) {
        return None;
    }
    Some(giving(d.set, d.come, result_of(file, g)))
}

// The right side of an &&.
fn and_step(known: &KnownPart<'_>, x: u32, d: Received) -> Option<Received>
    ensures { Steps (program_of known.now.part.file.now) known.now.part.function d (and x) result }
{
    let kind = d.given?;
    if kind != TYPE_BOOL {
        return None;
    }
    if !node_suits(known, TYPE_BOOL, x, d.set) {
        return None;
    }
    Some(giving(d.set, d.come, TYPE_BOOL))
}

// An assert, which takes a bool.
fn assert_step(d: Received) -> Option<Received>
    ensures { (P : Program) (f : ℕ) → Steps P f d check result }
{
    if d.given? != TYPE_BOOL {
        return None;
    }
    Some(bare(d.set, d.come))
}

// A discard, which takes any value.
fn discard_step(d: Received) -> Option<Received>
    ensures { (P : Program) (f : ℕ) → Steps P f d Frame.discard result }
{
    d.given?;
    Some(bare(d.set, d.come))
}

// The frame; by frame.
pub fn frame_step(known: &KnownPart<'_>, frame: &StoredFrame<'_>, d: Received) -> Option<Received>
    ensures { Steps (program_of known.now.part.file.now) known.now.part.function d (frame_in frame.now.memory.now frame.now.place) result }
{
    let kind = frame.word(0);
    let x = frame.word(1);
    match kind {
        FRAME_OPERATOR => operator_step(known, frame, d),
        FRAME_CALL => call_step(known, frame, d),
        FRAME_AND => and_step(known, x, d),
        FRAME_WAIT => statements::wait_step(known, x, d),
        FRAME_STORE => statements::store_step(known, x, d),
        FRAME_BRANCH => statements::branch_step(known, x, frame.word(2), d),
        FRAME_RETURN => statements::leave_step(known.part.file, known.part.function, d),
        FRAME_ASSERT => assert_step(d),
        _ => discard_step(d),
    }
}
