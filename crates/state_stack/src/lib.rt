// The frames and variables of a running state, changed in lent memory; top frame, activations and head are modules of their own.
#![tactic(auto)]

pub mod activations;
pub mod head;
pub mod top;

ghost use Rattle.std.specs.Prelude.{◌≡◌, List, [], ◌∷◌, ◌++◌, ℕ, suc, ◌+◌, ◌*◌, ◌≤◌, ◌<◌, length, get_or, set};
ghost use Rattle.spec_image.specs.Sizes.{caller_room, frame_size, frame_room, size, slot_room, variable_room};
ghost use Rattle.spec_machine.specs.Values.{Value, nothing};
ghost use Rattle.spec_machine.specs.Program.{Operation};
ghost use Rattle.spec_machine.specs.Machine.{Frame, gather, Saved};
ghost use Rattle.spec_image.specs.Layout.{filled, frame_words};
ghost use Rattle.spec_image.specs.Image.{saved_frames};
ghost use Rattle.spec_image.specs.Core.{core, HoldingCore, HoldingTopCore};
ghost use Rattle.state_words.specs.Meaning.{value_is};

use state_words::layout::{FRAME_WORDS, FRAMES};

// Lays a frame whose first words are given, and whose other words are zero, on n frames.
pub fn push(m: &mut [u32], n: usize, kind: u32, x: u32, y: u32, z: u32)
    requires { (size ≤ length m.old) × (n < frame_room) }
    ensures { (f : ℕ) (η : List Value) (fr : Frame) (K : List Frame) (A : List Saved) (R : List ℕ) → m.old ≡ core f η K A ++ R → length A < caller_room → n ≡ length (K ++ saved_frames A) → frame_words fr ≡ filled frame_size (kind ∷ x ∷ y ∷ z ∷ []) → m.new ≡ core f η (fr ∷ K) A ++ R }
{
    state_words::frames::put_frame(m, n, kind, x, y, z)
}

// Takes the top frame off, with so many frames under it.
pub fn pop(m: &mut [u32], under: usize)
    requires { (size ≤ length m.old) × (under < frame_room) }
    ensures { HoldingTopCore m.old (λ f η fr K A R. length A < caller_room → under ≡ length (K ++ saved_frames A) → m.new ≡ core f η K A ++ R) }
{
    state_words::frames::drop_frames(m, under, 1)
}

// Variable x of the current activation, over a callers.
pub fn variable(m: &[u32], a: usize, x: usize) -> state_words::Value
    requires { (size ≤ length m.now) × (a < caller_room) × (x < variable_room) }
    ensures { HoldingCore m.now (λ f η K A R. a ≡ length A → x < length η → length η ≤ variable_room → value_is result ≡ get_or η x nothing) }
{
    state_words::activations::variable(m, a, x)
}

// Stores a value in variable x of the current activation, over a callers.
pub fn set_variable(m: &mut [u32], a: usize, x: usize, v: state_words::Value)
    requires { (size ≤ length m.old) × (a < caller_room) × (x < variable_room) }
    ensures { HoldingCore m.old (λ f η K A R. a ≡ length A → x < length η → length η ≤ variable_room → m.new ≡ core f (set η x (value_is v)) K A ++ R) }
{
    state_words::activations::put_variable(m, a, x, v)
}

// Stores the value of the operand that follows y values, with z nodes waiting after it, in the top frame over n frames.
pub fn gain(m: &mut [u32], n: usize, y: u32, z: u32, v: state_words::Value)
    requires { (size ≤ length m.old) × (n < frame_room) × (y < 8) }
    ensures { (f : ℕ) (η : List Value) (h : Operation) (vs : List Value) (e : ℕ) (ns : List ℕ) (K : List Frame) (A : List Saved) (R : List ℕ) → m.old ≡ core f η (gather h vs (e ∷ ns) ∷ K) A ++ R → length A < caller_room → n ≡ length (K ++ saved_frames A) → length vs + suc (length ns) ≤ slot_room → y ≡ length vs → z ≡ length ns → m.new ≡ core f η (gather h (vs ++ (value_is v ∷ [])) ns ∷ K) A ++ R }
{
    state_words::frames::put_slot(m, n, y as usize, v);
    let at = FRAMES + n * FRAME_WORDS;
    m[at + 2] = y + 1;
    m[at + 3] = z;
}
