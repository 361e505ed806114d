// SHA-256, by which the release desk names the bytes that it checked.
#![tactic(auto)]

mod constants;
mod padding;

ghost use Rattle.std.specs.Prelude.{◌≡◌, ◌+◌, ◌/◌, ◌%◌, ◌^◌, ◌<◌, ◌≤◌, length, bit_xor};
ghost use Rattle.desk_digest.specs.Words.{shr, rotr, Ch, Maj};
ghost use Rattle.desk_digest.specs.Padding.{padded};
ghost use Rattle.desk_digest.specs.Sha256.{mixed, schedule_word, schedule, T1, T2, round, sums, compress, bytes_of, sha256};

use crate::constants::{INITIAL, K};
use crate::padding::word_at;

// The choice of y or z by x, bit by bit.
fn ch(x: u32, y: u32, z: u32) -> u32
    ensures { result ≡ Ch x y z }
{
    (x & y) ^ (!x & z)
}

// The majority of the three, bit by bit.
fn maj(x: u32, y: u32, z: u32) -> u32
    ensures { result ≡ Maj x y z }
{
    (x & y) ^ (x & z) ^ (y & z)
}

// Three rotations of a word, joined by exclusive or: Σ0 and Σ1 of a round.
fn rotations(x: u32, i: u32, j: u32, k: u32) -> u32
    requires { (0 < i) × (i < 32) × (0 < j) × (j < 32) × (0 < k) × (k < 32) }
    ensures { result ≡ bit_xor (bit_xor (rotr i x) (rotr j x)) (rotr k x) }
{
    x.rotate_right(i) ^ x.rotate_right(j) ^ x.rotate_right(k)
}

// Two rotations of a word and a shift, joined by exclusive or: σ0 and σ1 of the message schedule.
fn rotations_shift(x: u32, i: u32, j: u32, k: u32) -> u32
    requires { (0 < i) × (i < 32) × (0 < j) × (j < 32) × (k < 32) }
    ensures { result ≡ bit_xor (bit_xor (rotr i x) (rotr j x)) (shr k x) }
{
    x.rotate_right(i) ^ x.rotate_right(j) ^ (x >> k)
}

// W_t from t = 16 on, of the words before it.
fn mixed(w: &[u32; 64], t: usize) -> u32
    requires { (16 ≤ t) × (t < 64) }
    ensures { result ≡ mixed w.now t }
{
    rotations_shift(w[t - 2], 17, 19, 10)
        .wrapping_add(w[t - 7])
        .wrapping_add(rotations_shift(w[t - 15], 7, 18, 3))
        .wrapping_add(w[t - 16])
}

// W_t of the block at a place, of the words before it.
fn schedule_word(bytes: &[u8], at: usize, w: &[u32; 64], t: usize) -> u32
    requires { (at + 64 ≤ length (padded bytes.now)) × (t < 64) }
    ensures { result ≡ schedule_word (padded bytes.now) at w.now t }
{
    if t < 16 {
        word_at(bytes, at + 4 * t)
    } else {
        mixed(w, t)
    }
}

// The message schedule of the block at a place.
fn schedule(bytes: &[u8], at: usize) -> [u32; 64]
    requires { at + 64 ≤ length (padded bytes.now) }
    ensures { result ≡ schedule (padded bytes.now) at 64 }
{
    let mut w = [0u32; 64];
    for t in 0..64 {
        w[t] = schedule_word(bytes, at, &w, t);
    }
    w
}

// One round on the working variables a to h.
fn round(s: [u32; 8], k: u32, w: u32) -> [u32; 8]
    ensures { result ≡ round s k w }
{
    let [a, b, c, d, e, f, g, h] = s;
    let t1 = h
        .wrapping_add(rotations(e, 6, 11, 25))
        .wrapping_add(ch(e, f, g))
        .wrapping_add(k)
        .wrapping_add(w);
    let t2 = rotations(a, 2, 13, 22).wrapping_add(maj(a, b, c));
    [t1.wrapping_add(t2), a, b, c, d.wrapping_add(t1), e, f, g]
}

// The sums of the words, one by one.
fn sums(x: [u32; 8], y: [u32; 8]) -> [u32; 8]
    ensures { result ≡ sums x y }
{
    let mut sum = [0u32; 8];
    for i in 0..8 {
        sum[i] = x[i].wrapping_add(y[i]);
    }
    sum
}

// The next hash value, of that before it and the schedule of a block, by sixty-four rounds.
fn compress(s: [u32; 8], w: &[u32; 64]) -> [u32; 8]
    ensures { result ≡ compress s w.now }
{
    let mut turned = s;
    for (k, word) in K.iter().zip(w) {
        let next = round(turned, *k, *word);
        turned = next;
    }
    sums(turned, s)
}

// The bytes of eight words.
fn bytes_of(s: [u32; 8]) -> [u8; 32]
    ensures { result ≡ bytes_of s }
{
    let mut out = [0u8; 32];
    for i in 0..8 {
        let at = 4 * i;
        out[at..at + 4].copy_from_slice(&s[i].to_be_bytes());
    }
    out
}

// The digest of the bytes, block by block. The kit's crate sha2 does not stand for it: the wrong programs of must-fail/ are wrong lines of this text.
pub fn sha256(bytes: &[u8]) -> [u8; 32]
    ensures { result ≡ sha256 bytes.now }
{
    let count = (bytes.len() + 72) / 64;
    let mut s = INITIAL;
    for i in 0..count {
        let next = compress(s, &schedule(bytes, 64 * i));
        s = next;
    }
    bytes_of(s)
}
