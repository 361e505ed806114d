// The activations of a running state, entered and left in lent memory.
ghost use Rattle.std.specs.Prelude.{◌≡◌, List, [], ◌∷◌, ◌++◌, ℕ, suc, ◌+◌, ◌*◌, ◌≤◌, ◌<◌, length, set, replicate};
ghost use Rattle.spec_image.specs.Sizes.{activation_size, caller_room, frame_room, activations_at, size, slot_room, variable_room};
ghost use Rattle.words.specs.Blocks.{puts};
ghost use Rattle.spec_machine.specs.Values.{Value, nothing};
ghost use Rattle.spec_machine.specs.Program.{Operation};
ghost use Rattle.spec_machine.specs.Machine.{Frame, gather, Saved, saved};
ghost use Rattle.spec_image.specs.Image.{saved_frames};
ghost use Rattle.spec_image.specs.Core.{core, HoldingCore};
ghost use Rattle.state_words.specs.Meaning.{value_is};

use state_words::layout::{ACTIVATION_WORDS, ACTIVATIONS, FRAME_WORDS, FRAMES, SLOTS, VARIABLES};

// Stores the frame count of the activation left, with a callers, and the first words of the one entered, where all are zero.
fn open(m: &mut [u32], a: usize, k: u32, g: u32, c: u32)
    requires { (size ≤ length m.old) × (a + 1 < caller_room) }
    ensures { m.new ≡ puts (set m.old (activations_at + a * activation_size + 1) k) (activations_at + (a + 1) * activation_size) 0 (g ∷ 0 ∷ c ∷ []) }
{
    state_words::activations::put_frame_count(m, a, k);
    state_words::activations::put_activation(m, a + 1, g, 0, c)
}

// Enters function g of c variables without arguments; the activation left has k frames and a callers.
pub fn enter_none(m: &mut [u32], a: usize, k: u32, g: u32, c: u32)
    requires { (size ≤ length m.old) × (a + 1 < caller_room) }
    ensures { HoldingCore m.old (λ f η K A R. a ≡ length A → k ≡ length K → c ≤ variable_room → m.new ≡ core g (replicate c nothing) [] (saved f η K ∷ A) ++ R) }
{
    open(m, a, k, g, c)
}

// Leaves the current activation and its j frames for its caller's, with n frames and a callers under it.
pub fn leave(m: &mut [u32], n: usize, a: usize, j: usize)
    requires { (size ≤ length m.old) × (n + j ≤ frame_room) × (a + 1 < caller_room) }
    ensures { (f : ℕ) (η : List Value) (J : List Frame) (g : ℕ) (θ : List Value) (L : List Frame) (A : List Saved) (R : List ℕ) → m.old ≡ core f η J (saved g θ L ∷ A) ++ R → a ≡ length A → n ≡ length (L ++ saved_frames A) → j ≡ length J → m.new ≡ core g θ L A ++ R }
{
    state_words::frames::drop_frames(m, n, j);
    state_words::activations::drop_used(m, a + 1);
    state_words::activations::put_frame_count(m, a, 0)
}

// The function of the caller that has a callers.
pub fn caller_function(m: &[u32], a: usize) -> u32
    requires { (size ≤ length m.now) × (a < caller_room) }
    ensures { (f : ℕ) (η : List Value) (J : List Frame) (g : ℕ) (θ : List Value) (L : List Frame) (A : List Saved) (R : List ℕ) → m.now ≡ core f η J (saved g θ L ∷ A) ++ R → a ≡ length A → result ≡ g }
{
    state_words::activations::activation_word(m, a, 0)
}

// How many frames the caller has that has a callers.
pub fn caller_frames(m: &[u32], a: usize) -> u32
    requires { (size ≤ length m.now) × (a < caller_room) }
    ensures { (f : ℕ) (η : List Value) (J : List Frame) (g : ℕ) (θ : List Value) (L : List Frame) (A : List Saved) (R : List ℕ) → m.now ≡ core f η J (saved g θ L ∷ A) ++ R → a ≡ length A → result ≡ length L }
{
    state_words::activations::activation_word(m, a, 1)
}

// Enters function g of c variables with the y values of the top frame, over n frames, and one at hand, each moved straight to its variable.
pub fn enter(
    m: &mut [u32],
    n: usize,
    a: usize,
    k: u32,
    g: u32,
    c: u32,
    y: usize,
    v: state_words::Value,
)
    requires { (size ≤ length m.old) × (n < frame_room) × (a + 1 < caller_room) × (y ≤ slot_room) }
    ensures { (f : ℕ) (η : List Value) (h : Operation) (vs : List Value) (l : ℕ) (K : List Frame) (A : List Saved) (R : List ℕ) → m.old ≡ core f η (gather h vs [] ∷ K) A ++ R → a ≡ length A → n ≡ length (K ++ saved_frames A) → k ≡ length K → y ≡ length vs → c ≤ variable_room → c ≡ length vs + suc l → m.new ≡ core g ((vs ++ (value_is v ∷ [])) ++ replicate l nothing) [] (saved f η K ∷ A) ++ R }
{
    open(m, a, k, g, c);
    words::move_down(
        m,
        FRAMES + n * FRAME_WORDS + SLOTS,
        ACTIVATIONS + (a + 1) * ACTIVATION_WORDS + VARIABLES,
        (y + 1) / 2,
    );
    state_words::activations::put_variable(m, a + 1, y, v);
    state_words::frames::put_frame(m, n, 0, 0, 0, 0)
}
