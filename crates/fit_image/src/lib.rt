// The memory check's first half: whether the words of a memory are the image of a state.
#![tactic(auto)]

ghost use Rattle.std.specs.Prelude.{◌≡◌, true, ◌*◌, ◌≤◌, ◌<◌, length};
ghost use Rattle.spec_image.specs.Sizes.{activation_size, caller_room, frame_size, frame_room, env_size, size};
ghost use Rattle.spec_machine.specs.Machine.{State};
ghost use Rattle.spec_machine.specs.Fit.{WithinLimits};
ghost use Rattle.spec_image.specs.Decode.{state_of};
ghost use Rattle.spec_image.specs.Memory.{Holds};
ghost use Rattle.spec_image.specs.Narrow.{Narrow};
ghost use Rattle.fit_image.specs.BlockTests.{value_ok, values_ok, nodes_ok, control_ok, operands_ok, frame_ok, activation_ok};
ghost use Rattle.fit_image.specs.MemoryTest.{tag_ok, head_ok, activations_ok, frames_ok, entry_ok, env_ok, image_ok};

use state_words::layout::{
    ACTIVATION_WORDS, ACTIVATIONS, CALLER_LIMIT, ENVIRONMENT, FORM_BOOL, FORM_EVAL, FORM_EXEC,
    FORM_INT, FORM_NOTHING, FRAME_AND, FRAME_ASSERT, FRAME_BRANCH, FRAME_CALL, FRAME_DISCARD,
    FRAME_LIMIT, FRAME_OPERATOR, FRAME_RETURN, FRAME_STORE, FRAME_WAIT, FRAME_WORDS, FRAMES,
    HEAD_WORDS, IMAGE_WORDS, SLOT_ROOM, SLOTS, TAG_ABORT, TAG_ARITH, TAG_CALL, TAG_MAIN,
    TAG_RETURNED, TAG_RUNNING, TAG_VALUE, VARIABLE_ROOM, VARIABLES,
};

// Whether a type and a word are a value's. Types, forms, tags and kinds are numbers here, since any words are tested.
#[tactic(auto, using(crate::proofs::NoSuchTags::no_type), unfolding(crate::specs::BlockTests::value_ok))]
fn value_ok(tag: u32, word: u32) -> bool
    ensures { result ≡ value_ok tag word }
{
    match tag {
        0 => word == 0,
        1 => true,
        2 => word < 2,
        _ => false,
    }
}

// Whether the first n pairs of words are values.
// A loop by index, since a slice's iterator hands on pointers in pairs, which c/port cannot carry to other processors.
fn values_ok(s: &[u32], n: usize) -> bool
    requires { 2 * n ≤ length s.now }
    ensures { result ≡ values_ok n s.now }
{
    for i in 0..n {
        if !value_ok(s[2 * i], s[2 * i + 1]) {
            return false;
        }
    }
    true
}

// Whether the first n pairs of words are nodes, each with a zero after it.
// A loop by index, since a slice's iterator hands on pointers in pairs, which c/port cannot carry to other processors.
fn nodes_ok(s: &[u32], n: usize) -> bool
    requires { 2 * n ≤ length s.now }
    ensures { result ≡ nodes_ok n s.now }
{
    for i in 0..n {
        if s[2 * i + 1] != 0 {
            return false;
        }
    }
    true
}

// Whether the slots of a frame hold y values and z nodes, and zeros.
#[tactic(auto, using(crate::proofs::Ways::operands_many, crate::proofs::Ways::operands_few))]
fn operands_ok(s: &[u32], y: u32, z: u32) -> bool
    requires { length s.now ≡ 16 }
    ensures { result ≡ operands_ok y z s.now }
{
    if SLOT_ROOM < y {
        return false;
    }
    if SLOT_ROOM - y < z {
        return false;
    }
    let n = y as usize;
    let k = z as usize;
    let mid = 2 * n;
    let end = mid + 2 * k;
    values_ok(s, n) & (nodes_ok(&s[mid..], k) & words::all_zero(&s[end..]))
}

// Whether 20 words are a frame's; by frame.
#[tactic(auto, using(crate::proofs::Ways::kind_none, crate::proofs::Ways::kind_gather, crate::proofs::Ways::kind_past))]
fn frame_ok(b: &[u32]) -> bool
    requires { length b.now ≡ frame_size }
    ensures { result ≡ frame_ok b.now }
{
    match b[0] {
        FRAME_OPERATOR | FRAME_CALL => operands_ok(&b[SLOTS..], b[2], b[3]),
        FRAME_AND | FRAME_WAIT | FRAME_STORE => words::all_zero(&b[2..]),
        FRAME_BRANCH => words::all_zero(&b[3..]),
        FRAME_RETURN | FRAME_ASSERT | FRAME_DISCARD => words::all_zero(&b[1..]),
        _ => false,
    }
}

// Whether 136 words are an activation's.
#[tactic(auto, using(crate::proofs::Ways::variables_many, crate::proofs::Ways::variables_few))]
fn activation_ok(b: &[u32]) -> bool
    requires { length b.now ≡ activation_size }
    ensures { result ≡ activation_ok b.now }
{
    let count = b[2];
    if VARIABLE_ROOM < count {
        return false;
    }
    let n = count as usize;
    let end = VARIABLES + 2 * n;
    words::all_zero(&b[3..VARIABLES]) & (values_ok(&b[VARIABLES..], n) & words::all_zero(&b[end..]))
}

// Whether a form and a word are a control's.
#[tactic(auto, using(crate::proofs::NoSuchTags::no_form), unfolding(crate::specs::BlockTests::control_ok))]
fn control_ok(form: u32, word: u32) -> bool
    ensures { result ≡ control_ok form word }
{
    match form {
        FORM_NOTHING => word == 0,
        FORM_BOOL => word < 2,
        FORM_INT | FORM_EVAL | FORM_EXEC => true,
        _ => false,
    }
}

// Whether the first five words are those of a head.
#[tactic(auto, using(crate::proofs::NoSuchTags::no_tag), unfolding(crate::specs::MemoryTest::tag_ok))]
fn tag_ok(tag: u32, int: u32, count: u32, form: u32, word: u32) -> bool
    ensures { result ≡ tag_ok tag int count form word }
{
    let zero = int == 0;
    let plain = (count == 0) & ((form == 0) & (word == 0));
    match tag {
        TAG_MAIN | TAG_ARITH | TAG_ABORT => zero & plain,
        TAG_RUNNING => zero & ((1 <= count) & ((count <= CALLER_LIMIT) & control_ok(form, word))),
        TAG_RETURNED | TAG_VALUE | TAG_CALL => plain,
        _ => false,
    }
}

// Whether the first 128 words are a head.
#[tactic(auto, unfolding(crate::specs::MemoryTest::head_ok))]
fn head_ok(m: &[u32]) -> bool
    requires { size ≤ length m.now }
    ensures { result ≡ head_ok m.now }
{
    tag_ok(m[0], m[1], m[2], m[3], m[4]) & words::all_zero(&m[5..HEAD_WORDS])
}

// Whether n activations, and zeros above them, lie in their room.
// A loop by index, since a slice's iterator hands on pointers in pairs, which c/port cannot carry to other processors.
fn activations_ok(m: &[u32], n: usize) -> bool
    requires { (size ≤ length m.now) × (n ≤ caller_room) }
    ensures { result ≡ activations_ok m.now n }
{
    for i in (0..n).rev() {
        let at = ACTIVATIONS + i * ACTIVATION_WORDS;
        let end = at + ACTIVATION_WORDS;
        if !activation_ok(&m[at..end]) {
            return false;
        }
    }
    let top = ACTIVATIONS + n * ACTIVATION_WORDS;
    words::all_zero(&m[top..FRAMES])
}

// Whether n frames, and zeros above them, lie in their room.
// A loop by index, since a slice's iterator hands on pointers in pairs, which c/port cannot carry to other processors.
fn frames_ok(m: &[u32], n: usize) -> bool
    requires { (size ≤ length m.now) × (n ≤ frame_room) }
    ensures { result ≡ frames_ok m.now n }
{
    for i in (0..n).rev() {
        let at = FRAMES + i * FRAME_WORDS;
        let end = at + FRAME_WORDS;
        if !frame_ok(&m[at..end]) {
            return false;
        }
    }
    let top = FRAMES + n * FRAME_WORDS;
    words::all_zero(&m[top..ENVIRONMENT])
}

// Whether a word is an entry function's under a tag, which in a final state is none.
#[tactic(auto, using(crate::proofs::NoSuchTags::not_final), unfolding(crate::specs::MemoryTest::entry_ok))]
fn entry_ok(tag: u32, entry: u32) -> bool
    ensures { result ≡ entry_ok tag entry }
{
    match tag {
        TAG_VALUE | TAG_ARITH | TAG_ABORT => entry == 0,
        _ => true,
    }
}

// Whether 1,664 words are an environment's under a tag.
#[tactic(auto, using(crate::proofs::Environments::env_blank, crate::proofs::Environments::env_whole))]
fn env_ok(tag: u32, e: &[u32]) -> bool
    requires { length e.now ≡ env_size }
    ensures { result ≡ env_ok tag e.now }
{
    if words::all_zero(e) {
        return true;
    }
    (e[0] == 0) & (entry_ok(tag, e[1]) & words::all_zero(&e[2..]))
}

// Whether head, activations, frames and environment pass their tests.
#[tactic(auto, using(crate::proofs::Rooms::head_less, crate::proofs::Rooms::head_few, crate::proofs::Rooms::image_less, crate::proofs::Rooms::image_many, crate::proofs::Rooms::image_end))]
fn image_ok(m: &[u32]) -> bool
    requires { size ≤ length m.now }
    ensures { result ≡ image_ok m.now }
{
    if !head_ok(m) {
        return false;
    }
    let n = m[2] as usize;
    if !activations_ok(m, n) {
        return false;
    }
    let total = state_words::activations::frames_held(m, n);
    if FRAME_LIMIT < total {
        return false;
    }
    frames_ok(m, total) & env_ok(m[0], &m[ENVIRONMENT..IMAGE_WORDS])
}

// Whether the first 16,384 words are the image of a state within the limits and narrow; it is then the state that they stand for.
pub fn holds_image(m: &[u32]) -> bool
    requires { size ≤ length m.now }
    ensures sound { result ≡ true → Holds m.now (state_of m.now) × WithinLimits (state_of m.now) × Narrow (state_of m.now) }
    ensures complete { (s : State) → WithinLimits s → Narrow s → Holds m.now s → result ≡ true }
{
    image_ok(m)
}
