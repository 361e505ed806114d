// The head of a running state, and main's activation, stored in lent memory and taken off.
ghost use Rattle.std.specs.Prelude.{◌≡◌, List, [], ◌∷◌, ◌++◌, ℕ, ◌+◌, ◌≤◌, ◌<◌, length, replicate};
ghost use Rattle.spec_image.specs.Sizes.{caller_room, env_at, frame_room, size, variable_room};
ghost use Rattle.spec_machine.specs.Values.{Value, nothing};
ghost use Rattle.spec_machine.specs.Machine.{RunEnv, Control, Frame, Saved, running};
ghost use Rattle.spec_image.specs.Layout.{control_words, env_words};
ghost use Rattle.spec_image.specs.Image.{image};
ghost use Rattle.spec_image.specs.Core.{core, HoldingRun};

use state_words::layout::TAG_RUNNING;

// Enters the first function, g of c variables, where all words but the environment's are zero.
pub fn enter_main(m: &mut [u32], g: u32, c: u32)
    requires { size ≤ length m.old }
    ensures { (z : ℕ) (R : List ℕ) → m.old ≡ replicate z 0 ++ R → z ≡ env_at → c ≤ variable_room → m.new ≡ core g (replicate c nothing) [] [] ++ R }
{
    state_words::activations::put_activation(m, 0, g, 0, c)
}

// Leaves the first function and its j frames: all words but the environment's are zero again.
pub fn leave_main(m: &mut [u32], j: usize)
    requires { (size ≤ length m.old) × (j ≤ frame_room) }
    ensures { (z f : ℕ) (η : List Value) (J : List Frame) (R : List ℕ) → m.old ≡ core f η J [] ++ R → z ≡ env_at → j ≡ length J → m.new ≡ replicate z 0 ++ R }
{
    state_words::frames::drop_frames(m, 0, j);
    state_words::activations::drop_activation(m, 0)
}

// Stores the head over a core: a callers, the number of frames, and the control's two words.
pub fn store_head(m: &mut [u32], a: usize, callers: u32, frames: u32, form: u32, word: u32)
    requires { (size ≤ length m.old) × (a < caller_room) × (callers ≡ a) }
    ensures { (c : Control) → HoldingRun m.old (λ α f η K A R. a ≡ length A → frames ≡ length K → control_words c ≡ form ∷ word ∷ [] → m.new ≡ image (running c α f η K A) ++ R) }
{
    m[0] = TAG_RUNNING;
    m[1] = 0;
    m[2] = callers + 1;
    m[3] = form;
    m[4] = word;
    state_words::activations::put_frame_count(m, a, frames)
}

// Takes the head of a running state off, and leaves its core.
pub fn clear_head(m: &mut [u32], a: usize)
    requires { (size ≤ length m.old) × (a < caller_room) }
    ensures { (c : Control) (α : RunEnv) (f : ℕ) (η : List Value) (K : List Frame) (A : List Saved) (R : List ℕ) → m.old ≡ image (running c α f η K A) ++ R → a ≡ length A → m.new ≡ core f η K A ++ (env_words α ++ R) }
{
    m[0] = 0;
    m[1] = 0;
    m[2] = 0;
    m[3] = 0;
    m[4] = 0;
    state_words::activations::put_frame_count(m, a, 0)
}
