// The words of activations in lent memory.
#![tactic(auto, unfolding(crate::specs::Meaning::activation_at, crate::specs::Meaning::variable_at))]

ghost use Rattle.std.specs.Prelude.{◌≡◌, [], ◌∷◌, ◌+◌, ◌*◌, ◌≤◌, ◌<◌, min, length, get_or, replicate};
ghost use Rattle.spec_image.specs.Sizes.{activation_size, caller_room, size, variable_room, variables_from};
ghost use Rattle.words.specs.Blocks.{puts};
ghost use Rattle.spec_image.specs.Layout.{value_words};
ghost use Rattle.spec_image.specs.Decode.{value_of, held_in};
ghost use Rattle.state_words.specs.Meaning.{value_is, activation_at, variable_at};

use crate::Value;
use crate::layout::{ACTIVATION_WORDS, ACTIVATIONS, VARIABLE_ROOM, VARIABLES};

// Word j of the activation with n activations under it.
pub fn activation_word(m: &[u32], n: usize, j: usize) -> u32
    requires { (size ≤ length m.now) × (n < caller_room) × (j < activation_size) }
    ensures { result ≡ get_or m.now (activation_at n + j) 0 }
{
    m[ACTIVATIONS + n * ACTIVATION_WORDS + j]
}

// How many frames the first n activations have together.
#[tactic(auto, using(crate::proofs::Totals::total_next))]
pub fn frames_held(m: &[u32], n: usize) -> usize
    requires { (size ≤ length m.now) × (n ≤ caller_room) }
    ensures { result ≡ held_in m.now n }
{
    let mut sum = 0;
    for a in 0..n {
        sum += activation_word(m, a, 1) as usize;
    }
    sum
}

// The first words of an activation stored over n activations, where all words are zero.
pub fn put_activation(m: &mut [u32], n: usize, function: u32, frames: u32, variables: u32)
    requires { (size ≤ length m.old) × (n < caller_room) }
    ensures { m.new ≡ puts m.old (activation_at n) 0 (function ∷ frames ∷ variables ∷ []) }
{
    let at = ACTIVATIONS + n * ACTIVATION_WORDS;
    m[at] = function;
    m[at + 1] = frames;
    m[at + 2] = variables;
}

// How many frames an activation has, stored in it.
pub fn put_frame_count(m: &mut [u32], n: usize, frames: u32)
    requires { (size ≤ length m.old) × (n < caller_room) }
    ensures { m.new ≡ puts m.old (activation_at n + 1) 0 (frames ∷ []) }
{
    let at = ACTIVATIONS + n * ACTIVATION_WORDS + 1;
    m[at] = frames;
}

// The words of an activation set to zero.
pub fn drop_activation(m: &mut [u32], n: usize)
    requires { (size ≤ length m.old) × (n < caller_room) }
    ensures { m.new ≡ puts m.old (activation_at n) 0 (replicate activation_size 0) }
{
    words::zero_at(m, ACTIVATIONS + n * ACTIVATION_WORDS, ACTIVATION_WORDS);
}

// The words that an activation uses, by the number of variables that it says, set to zero.
pub fn drop_used(m: &mut [u32], n: usize)
    requires { (size ≤ length m.old) × (n < caller_room) }
    ensures { m.new ≡ puts m.old (activation_at n) 0 (replicate (variables_from + min (get_or m.old (activation_at n + 2) 0) variable_room * 2) 0) }
{
    let c = activation_word(m, n, 2);
    if VARIABLE_ROOM < c {
        return drop_activation(m, n);
    }
    words::zero_at(
        m,
        ACTIVATIONS + n * ACTIVATION_WORDS,
        VARIABLES + c as usize * 2,
    )
}

// Variable x of the activation with n activations under it.
pub fn variable(m: &[u32], n: usize, x: usize) -> Value
    requires { (size ≤ length m.now) × (n < caller_room) × (x < variable_room) }
    ensures { value_is result ≡ value_of (get_or m.now (variable_at n x) 0) (get_or m.now (variable_at n x + 1) 0) }
{
    crate::value_at(m, ACTIVATIONS + n * ACTIVATION_WORDS + (VARIABLES + x * 2))
}

// A value stored in variable x of the activation with n activations under it.
pub fn put_variable(m: &mut [u32], n: usize, x: usize, v: Value)
    requires { (size ≤ length m.old) × (n < caller_room) × (x < variable_room) }
    ensures { m.new ≡ puts m.old (variable_at n x) 0 (value_words (value_is v)) }
{
    crate::put_value(
        m,
        ACTIVATIONS + n * ACTIVATION_WORDS + (VARIABLES + x * 2),
        v,
    )
}
