// Values, references and controls in words of lent memory; frames and activations are modules of their own.
#![tactic(auto)]

pub mod activations;
pub mod frames;
pub mod layout;

ghost use Rattle.std.specs.Prelude.{◌≡◌, [], ◌∷◌, ◌+◌, ◌≤◌, length, get_or};
ghost use Rattle.words.specs.Blocks.{puts};
ghost use Rattle.spec_machine.specs.Machine as machine;
ghost use Rattle.spec_image.specs.Layout.{bit, value_words};
ghost use Rattle.spec_image.specs.Decode.{value_of, ref_of, control_of};
ghost use Rattle.state_words.specs.Meaning.{value_is, ref_is, control_is};

use crate::layout::{FORM_BOOL, FORM_EVAL, FORM_INT, FORM_NOTHING};

// A value: nothing, an int by its word, or a bool.
#[derive(Clone, Copy)]
pub enum Value {
    Nothing,
    Int(u32),
    Truth(bool),
}

// A statement: the nop, a node's, or the if or the seq of a while's node.
#[derive(Clone, Copy)]
pub enum Ref {
    Nop,
    Node(u32),
    IfOf(u32),
    SeqOf(u32),
}

// A value at hand, an expression to evaluate by its node, a statement to execute by its word.
#[derive(Clone, Copy)]
pub enum Control {
    Nothing,
    Int(u32),
    Truth(bool),
    Eval(u32),
    Exec(u32),
}

// The value of a type and a word. The types, forms and words here are numbers since an image has them, which other programs read.
#[tactic(auto, unfolding(crate::specs::Meaning::value_is, spec_image::specs::Decode::value_of))]
fn value_of(tag: u32, word: u32) -> Value
    ensures { value_is result ≡ value_of tag word }
{
    match tag {
        0 => Value::Nothing,
        1 => Value::Int(word),
        _ => Value::Truth(word == 1),
    }
}

// The value in the two words at a place.
pub fn value_at(m: &[u32], at: usize) -> Value
    requires { at + 2 ≤ length m.now }
    ensures { value_is result ≡ value_of (get_or m.now at 0) (get_or m.now (at + 1) 0) }
{
    value_of(m[at], m[at + 1])
}

// Two words stored at a place.
fn put_pair(m: &mut [u32], at: usize, a: u32, b: u32)
    requires { at + 2 ≤ length m.old }
    ensures { m.new ≡ puts m.old at 0 (a ∷ b ∷ []) }
{
    m[at] = a;
    m[at + 1] = b;
}

// The number of a bool.
#[tactic(auto, unfolding(spec_image::specs::Layout::bit))]
pub fn bit_of(b: bool) -> u32
    ensures { result ≡ bit b }
{
    u32::from(b)
}

// A value stored in the two words at a place.
#[tactic(auto, unfolding(crate::specs::Meaning::value_is, spec_image::specs::Layout::value_words))]
pub fn put_value(m: &mut [u32], at: usize, v: Value)
    requires { at + 2 ≤ length m.old }
    ensures { m.new ≡ puts m.old at 0 (value_words (value_is v)) }
{
    match v {
        Value::Nothing => put_pair(m, at, 0, 0),
        Value::Int(n) => put_pair(m, at, 1, n),
        Value::Truth(b) => put_pair(m, at, 2, bit_of(b)),
    }
}

// The reference of a word.
#[tactic(auto, unfolding(crate::specs::Meaning::ref_is, spec_image::specs::Decode::ref_of))]
pub fn ref_of(word: u32) -> Ref
    ensures { ref_is result ≡ ref_of word }
{
    if word == 0 {
        return Ref::Nop;
    }
    let n = (word - 1) / 3;
    let form = (word - 1) % 3;
    match form {
        0 => Ref::Node(n),
        1 => Ref::IfOf(n),
        _ => Ref::SeqOf(n),
    }
}

// The control of a form and a word.
#[tactic(auto, unfolding(crate::specs::Meaning::control_is, spec_image::specs::Decode::control_of))]
pub fn control_of(form: u32, word: u32) -> Control
    ensures { control_is result ≡ control_of form word }
{
    match form {
        FORM_NOTHING => Control::Nothing,
        FORM_INT => Control::Int(word),
        FORM_BOOL => Control::Truth(word == 1),
        FORM_EVAL => Control::Eval(word),
        _ => Control::Exec(word),
    }
}

// The control that has a value at hand.
impl From<Value> for Control {
    ghost from_gives = { λ v c. control_is c ≡ machine.val (value_is v) };

    #[tactic(auto, unfolding(crate::specs::Meaning::value_is, crate::specs::Meaning::control_is))]
    fn from(v: Value) -> Control {
        match v {
            Value::Nothing => Control::Nothing,
            Value::Int(word) => Control::Int(word),
            Value::Truth(truth) => Control::Truth(truth),
        }
    }
}
