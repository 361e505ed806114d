// The part of an image that a state fills: the activations and the frames that it has.
ghost use Rattle.std.specs.Prelude.{List, ◌≡◌, ℕ, ◌≤◌, max, length, take};
ghost use Rattle.spec_image.specs.Sizes.{size};
ghost use Rattle.fit_state.specs.HoldsState.{HoldsState};
ghost use Rattle.log_records.specs.Ranges.{Alike, NoEnv, Within};

use state_words::layout::{ACTIVATION_WORDS, ACTIVATIONS, FRAME_WORDS, FRAMES};

// The end of the activations, and the end of the frames.
#[derive(Clone, Copy)]
pub struct Extent {
    pub low: usize,
    pub high: usize,
}

// The extent of the state in a memory.
pub fn extent_of(m: &[u32]) -> Extent
    requires { HoldsState m.now × (size ≤ length m.now) × NoEnv m.now }
    ensures { Within result.low result.high (take size m.now) }
{
    let n = m[2] as usize;
    let frames = state_words::activations::frames_held(m, n);
    Extent {
        low: ACTIVATIONS + n * ACTIVATION_WORDS,
        high: FRAMES + frames * FRAME_WORDS,
    }
}

// The greater number.
fn greater(a: usize, b: usize) -> usize
    ensures { result ≡ max a b }
{
    a.max(b)
}

// The extent of two states together.
pub fn joined(a: Extent, b: Extent) -> Extent
    ensures { (x y : List ℕ) → Within a.low a.high x → Within b.low b.high y → Alike result.low result.high x y }
{
    Extent {
        low: greater(a.low, b.low),
        high: greater(a.high, b.high),
    }
}
