// The top frame of a running state: read as a view, and laid with the nodes of operands that wait.
ghost use Rattle.std.specs.Prelude.{◌≡◌, List, [], ◌∷◌, ◌++◌, ℕ, ◌+◌, ◌*◌, ◌≤◌, ◌<◌, length, replicate};
ghost use Rattle.records.specs.Format.{most_nodes};
ghost use Rattle.spec_image.specs.Sizes.{caller_room, frame_size, frame_room, size, slot_room};
ghost use Rattle.records.specs.Fields.{size_at};
ghost use Rattle.records.specs.Children.{walk};
ghost use Rattle.spec_machine.specs.Values.{Value};
ghost use Rattle.spec_machine.specs.Program.{Operation};
ghost use Rattle.spec_machine.specs.Machine.{Frame, gather, Saved};
ghost use Rattle.spec_machine.specs.File.{backwards};
ghost use Rattle.spec_image.specs.Layout.{filled, frame_words};
ghost use Rattle.spec_image.specs.Image.{saved_frames};
ghost use Rattle.spec_image.specs.Core.{core, HoldingTopCore};
ghost use Rattle.state_stack.specs.Shows.{Shows};

use records::nodes::prior;
use state_words::layout::{
    FRAME_AND, FRAME_ASSERT, FRAME_BRANCH, FRAME_CALL, FRAME_OPERATOR, FRAME_RETURN, FRAME_STORE,
    FRAME_WAIT, FRAME_WORDS, FRAMES, SLOTS,
};

// A frame: what gathers, with how many values it has and how many nodes wait, or one of the frames without operands; by frame.
#[derive(Clone, Copy)]
pub enum Top {
    Operator(u32, u32, u32),
    Call(u32, u32, u32),
    And(u32),
    Wait(u32),
    Store(u32),
    Branch(u32, u32),
    Leave,
    Assert,
    Discard,
}

// The top frame over n frames; by frame.
pub fn top_frame(m: &[u32], n: usize) -> Top
    requires { (size ≤ length m.now) × (n < frame_room) }
    ensures { HoldingTopCore m.now (λ f η fr K A R. length A < caller_room → n ≡ length (K ++ saved_frames A) → Shows result fr) }
{
    let at = FRAMES + n * FRAME_WORDS;
    let kind = m[at];
    let x = m[at + 1];
    let y = m[at + 2];
    match kind {
        FRAME_OPERATOR => Top::Operator(x, y, m[at + 3]),
        FRAME_CALL => Top::Call(x, y, m[at + 3]),
        FRAME_AND => Top::And(x),
        FRAME_WAIT => Top::Wait(x),
        FRAME_STORE => Top::Store(x),
        FRAME_BRANCH => Top::Branch(x, y),
        FRAME_RETURN => Top::Leave,
        FRAME_ASSERT => Top::Assert,
        _ => Top::Discard,
    }
}

// Lays a frame on n frames that gathers the operands at k nodes, the last of them at `last`, and answers the first.
pub fn push_gather(
    m: &mut [u32],
    part: &[u8],
    n: usize,
    kind: u32,
    x: u32,
    k: u32,
    last: usize,
) -> usize
    requires { (size ≤ length m.old) × (n < frame_room) × (1 ≤ k) × (k ≤ 8) × (12 * last + 12 ≤ length part.now) × (last < most_nodes) }
    ensures { (result ≤ last) × ((f : ℕ) (η : List Value) (h : Operation) (e : ℕ) (ns : List ℕ) (K : List Frame) (A : List Saved) (R : List ℕ) → m.old ≡ core f η K A ++ R → length A < caller_room → n ≡ length (K ++ saved_frames A) → ((z : ℕ) → z ≤ slot_room → frame_words (gather h [] (replicate z 0)) ≡ filled frame_size (kind ∷ x ∷ 0 ∷ z ∷ [])) → backwards (walk (size_at part.now) k last) [] ≡ e ∷ ns → (result ≡ e) × (m.new ≡ core f η (gather h [] ns ∷ K) A ++ R)) }
{
    state_words::frames::put_frame(m, n, kind, x, 0, k - 1);
    let mut c = last;
    for j in (0..k as usize - 1).rev() {
        m[FRAMES + n * FRAME_WORDS + (SLOTS + j * 2)] = c as u32;
        c = prior(part, c);
    }
    c
}
