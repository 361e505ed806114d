// The words of frames in lent memory.
#![tactic(auto, unfolding(crate::specs::Meaning::frame_at, crate::specs::Meaning::slot_at))]

ghost use Rattle.std.specs.Prelude.{◌≡◌, [], ◌∷◌, ◌+◌, ◌*◌, ◌≤◌, ◌<◌, length, get_or, replicate};
ghost use Rattle.words.specs.Blocks.{puts};
ghost use Rattle.spec_image.specs.Sizes.{frame_size, frame_room, size};
ghost use Rattle.spec_image.specs.Layout.{value_words};
ghost use Rattle.spec_image.specs.Decode.{value_of};
ghost use Rattle.state_words.specs.Meaning.{value_is, frame_at, slot_at};

use crate::Value;
use crate::layout::{FRAME_WORDS, FRAMES, SLOTS};

// Word j of the frame with n frames under it.
pub fn frame_word(m: &[u32], n: usize, j: usize) -> u32
    requires { (size ≤ length m.now) × (n < frame_room) × (j < frame_size) }
    ensures { result ≡ get_or m.now (frame_at n + j) 0 }
{
    m[FRAMES + n * FRAME_WORDS + j]
}

// The first words of a frame stored over n frames, where all words are zero.
pub fn put_frame(m: &mut [u32], n: usize, kind: u32, x: u32, y: u32, z: u32)
    requires { (size ≤ length m.old) × (n < frame_room) }
    ensures { m.new ≡ puts m.old (frame_at n) 0 (kind ∷ x ∷ y ∷ z ∷ []) }
{
    words::put_four(m, FRAMES + n * FRAME_WORDS, kind, x, y, z)
}

// The words of k frames over n set to zero.
pub fn drop_frames(m: &mut [u32], n: usize, k: usize)
    requires { (size ≤ length m.old) × (n + k ≤ frame_room) }
    ensures { m.new ≡ puts m.old (frame_at n) 0 (replicate (k * frame_size) 0) }
{
    words::zero_at(m, FRAMES + n * FRAME_WORDS, k * FRAME_WORDS);
}

// The value in slot k of the frame with n frames under it.
pub fn slot_value(m: &[u32], n: usize, k: usize) -> Value
    requires { (size ≤ length m.now) × (n < frame_room) × (k < 8) }
    ensures { value_is result ≡ value_of (get_or m.now (slot_at n k) 0) (get_or m.now (slot_at n k + 1) 0) }
{
    crate::value_at(m, FRAMES + n * FRAME_WORDS + (SLOTS + k * 2))
}

// A value stored in slot k of the frame with n frames under it.
pub fn put_slot(m: &mut [u32], n: usize, k: usize, v: Value)
    requires { (size ≤ length m.old) × (n < frame_room) × (k < 8) }
    ensures { m.new ≡ puts m.old (slot_at n k) 0 (value_words (value_is v)) }
{
    crate::put_value(m, FRAMES + n * FRAME_WORDS + (SLOTS + k * 2), v)
}
