// The operands that a frame gathers: values and nodes in its slots, held to the types wanted.
ghost use Rattle.std.specs.Prelude.{◌≡◌, ℕ, ◌+◌, ◌*◌, ◌-◌, ◌≤◌, ◌<◌, get_or, drop};
ghost use Rattle.varset.specs.Sets.{has};
ghost use Rattle.spec_language.specs.Types.{mask_type};
ghost use Rattle.spec_machine.specs.Values.{type_v};
ghost use Rattle.spec_machine.specs.File.{program_of};
ghost use Rattle.spec_image.specs.Decode.{value_of, values_of, nodes_of};
ghost use Rattle.state_words.specs.Meaning.{frame_at};
ghost use Rattle.fit_frames.specs.Operands.{values_suit, node_suits, nodes_suit, gathered};
ghost use Rattle.fit_frames.specs.Slots.{slots_in};

use crate::stored::StoredFrame;
use check_types::mask_type;
use fit_flow::KnownPart;
use records::format::{TYPE_BOOL, TYPE_INT, TYPE_NOTHING};
use varset::VarSet;

// The types wanted of operands, as the masks of those that are bools, arrays and grids.
#[derive(Clone, Copy)]
pub struct Masks {
    pub bools: u8,
    pub arrays: u8,
    pub grids: u8,
}

impl Masks {
    // The type wanted of operand k.
    fn wanted(self, k: usize) -> u8
        requires { k < 8 }
        ensures { result ≡ mask_type self.bools self.arrays self.grids k }
    {
        mask_type(self.bools, self.arrays, self.grids, k)
    }
}

// The type of a value, by the first of its words.
#[tactic(auto, unfolding(spec_image::specs::Decode::value_of))]
pub fn tag_type(tag: u32) -> u8
    ensures { (w : ℕ) → result ≡ type_v (value_of tag w) }
{
    match tag {
        0 => TYPE_NOTHING,
        1 => TYPE_INT,
        _ => TYPE_BOOL,
    }
}

// Whether the first y slots of a frame hold values of the types wanted.
fn values_suit(frame: &StoredFrame<'_>, masks: Masks, y: usize) -> bool
    requires { y < 8 }
    ensures { result ≡ values_suit (mask_type masks.bools masks.arrays masks.grids) 0 (values_of y (slots_in frame.now.memory.now frame.now.place)) }
{
    for k in 0..y {
        if masks.wanted(k) != tag_type(frame.word(4 + k * 2)) {
            return false;
        }
    }
    true
}

// Whether a node is an expression of the type wanted that reads variables of the set alone.
pub fn node_suits(known: &KnownPart<'_>, want: u8, x: u32, set: VarSet) -> bool
    ensures { result ≡ node_suits (program_of known.now.part.file.now) known.now.part.function (has set.0) want x }
{
    if !known.part.is_expression(x) {
        return false;
    }
    if want != known.part.expression_type(known.decls, x) {
        return false;
    }
    known.reads_held(x, set)
}

// Whether the slots from y on, up to an end, hold nodes of the types wanted after y values and one more.
fn nodes_suit(
    known: &KnownPart<'_>,
    frame: &StoredFrame<'_>,
    masks: Masks,
    y: usize,
    end: usize,
    set: VarSet,
) -> bool
    requires { (y ≤ end) × (end < 8) }
    ensures { result ≡ nodes_suit (program_of known.now.part.file.now) known.now.part.function (has set.0) (mask_type masks.bools masks.arrays masks.grids) (y + 1) (nodes_of (end - y) (drop (2 * y) (slots_in frame.now.memory.now frame.now.place))) }
{
    for j in y..end {
        if !node_suits(known, masks.wanted(j + 1), frame.word(4 + j * 2), set) {
            return false;
        }
    }
    true
}

// Whether the operands of a frame, with the one that comes down, are as many as wanted and of the types wanted.
pub fn gathers(
    known: &KnownPart<'_>,
    frame: &StoredFrame<'_>,
    masks: Masks,
    count: u32,
    kind: u8,
    set: VarSet,
) -> bool
    requires { count ≤ 8 }
    ensures { result ≡ gathered (program_of known.now.part.file.now) known.now.part.function (has set.0) (mask_type masks.bools masks.arrays masks.grids) count kind (values_of (get_or frame.now.memory.now (frame_at frame.now.place + 2) 0) (slots_in frame.now.memory.now frame.now.place)) (nodes_of (get_or frame.now.memory.now (frame_at frame.now.place + 3) 0) (drop (2 * get_or frame.now.memory.now (frame_at frame.now.place + 2) 0) (slots_in frame.now.memory.now frame.now.place))) }
{
    let y = frame.word(2);
    let z = frame.word(3);
    if 7 < y {
        return false;
    }
    if 7 < z {
        return false;
    }
    if y + z + 1 != count {
        return false;
    }
    let low = y as usize;
    let end = (y + z) as usize;
    if !values_suit(frame, masks, low) {
        return false;
    }
    if masks.wanted(low) != kind {
        return false;
    }
    nodes_suit(known, frame, masks, low, end, set)
}
