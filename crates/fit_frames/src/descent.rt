// The walk down an activation's frames, from what stands over them.
ghost use Rattle.std.specs.Prelude.{◌≡◌, ◌+◌, ◌*◌, ◌≤◌, length};
ghost use Rattle.spec_image.specs.Sizes.{frame_size, frame_room, frames_at, size};
ghost use Rattle.varset.specs.Sets.{has};
ghost use Rattle.words.specs.Stacks.{entries, chain};
ghost use Rattle.spec_machine.specs.Machine.{eval, exec};
ghost use Rattle.spec_machine.specs.File.{program_of};
ghost use Rattle.spec_image.specs.Decode.{frame_of};
ghost use Rattle.state_words.specs.Meaning.{ref_is, control_is};
ghost use Rattle.fit_frames.specs.Incoming.{frame_fits, hands_on, ends};
ghost use Rattle.fit_frames.specs.Meaning.{incoming_is};
ghost use Rattle.fit_frames.specs.StartAnswer.{StartAnswer};

use crate::stored::StoredFrame;
use crate::{Received, bare, frame_step, giving};
use fit_flow::KnownPart;
use records::format::{TYPE_BOOL, TYPE_INT, TYPE_NOTHING};
use state_words::{Control, Ref};
use varset::VarSet;

// Whether each of the k frames over the first `low` suits what comes down to it, and nothing is left open under them.
pub fn frames_fit(known: &KnownPart<'_>, memory: &[u32], low: usize, k: usize, d: Received) -> bool
    requires { (size ≤ length memory.now) × (low + k ≤ frame_room) }
    ensures { result ≡ chain (frame_fits (program_of known.now.part.file.now) known.now.part.function) (hands_on (program_of known.now.part.file.now) known.now.part.function) ends (incoming_is d) (entries frame_size frame_of memory.now (frames_at + low * frame_size) k) }
{
    let mut down = d;
    for i in (0..k).rev() {
        let frame = StoredFrame {
            memory,
            place: low + i,
        };
        let Some(next) = frame_step(known, &frame, down) else {
            return false;
        };
        down = next;
    }
    down.given.is_none() & down.come
}

// An expression to evaluate, over the frames.
fn begin_expression(known: &KnownPart<'_>, x: u32, set: VarSet) -> Option<Received>
    ensures { StartAnswer (program_of known.now.part.file.now) known.now.part.function (has set.0) (eval x) result }
{
    if !known.part.is_expression(x) {
        return None;
    }
    if known.part.is_constant(x) {
        return None;
    }
    if !known.reads_held(x, set) {
        return None;
    }
    Some(giving(set, false, known.part.expression_type(known.decls, x)))
}

// A statement to execute, over the frames.
fn begin_statement(known: &KnownPart<'_>, r: Ref, set: VarSet) -> Option<Received>
    ensures { StartAnswer (program_of known.now.part.file.now) known.now.part.function (has set.0) (exec (ref_is r)) result }
{
    if !known.part.is_statement(r) {
        return None;
    }
    let flowed = known.through(r, set);
    if !flowed.ok {
        return None;
    }
    Some(bare(flowed.left, known.returning(r)))
}

// The control over the frames of an activation whose variables with values are the set.
#[tactic(auto, unfolding(state_words::specs::Meaning::control_is))]
pub fn begin(known: &KnownPart<'_>, set: VarSet, c: Control) -> Option<Received>
    ensures { StartAnswer (program_of known.now.part.file.now) known.now.part.function (has set.0) (control_is c) result }
{
    match c {
        Control::Nothing => Some(giving(set, false, TYPE_NOTHING)),
        Control::Int(_) => Some(giving(set, false, TYPE_INT)),
        Control::Truth(_) => Some(giving(set, false, TYPE_BOOL)),
        Control::Eval(x) => begin_expression(known, x, set),
        Control::Exec(r) => begin_statement(known, state_words::ref_of(r), set),
    }
}
