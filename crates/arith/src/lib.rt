// The operators on integers of 32 bits, held as words of u32.
#![tactic(auto)]

ghost use Rattle.std.specs.Prelude.{◌≡◌, ◌≤◌, not, ◌&&◌, length, ◌==◌};
ghost use Rattle.records.specs.Fields.{edition_of};
ghost use Rattle.arith.specs.Int.{int, wrap};
ghost use Rattle.arith.specs.Operators.{add_of, sub_of, mul_of, quot_of, rem_of, shl_of, shr_of, lt_of, le_of, no_quotient, divided, no_shift, shifted, applied};

use records::edition_of;

// What an operator gives: an int, as a word, a bool, or the exception arith.
#[derive(Clone, Copy)]
pub enum Applied {
    Int(u32),
    Truth(bool),
    Arith,
}

// A word read as signed.
#[tactic(auto, using(crate::proofs::Casts::signed_is))]
pub fn signed(a: u32) -> i32
    ensures { result ≡ int a }
{
    a.cast_signed()
}

// The word of an integer.
#[tactic(auto, using(crate::proofs::WordInts::wrap_of_z))]
pub fn bits(z: i32) -> u32
    ensures { result ≡ wrap z }
{
    z.cast_unsigned()
}

// The sum.
#[tactic(auto, using(crate::proofs::Sums::add_law))]
fn add(a: u32, b: u32) -> u32
    ensures { result ≡ add_of a b }
{
    a.wrapping_add(b)
}

// The difference.
#[tactic(auto, using(crate::proofs::Sums::sub_law))]
fn sub(a: u32, b: u32) -> u32
    ensures { result ≡ sub_of a b }
{
    a.wrapping_sub(b)
}

// The product.
#[tactic(auto, using(crate::proofs::Sums::mul_law))]
fn mul(a: u32, b: u32) -> u32
    ensures { result ≡ mul_of a b }
{
    a.wrapping_mul(b)
}

// Whether both divisions raise arith. It is kept beside checked_div and checked_rem: it says once what both would answer None for, and the wrong programs are of this line.
fn no_quotient(a: u32, b: u32) -> bool
    ensures { result ≡ no_quotient a b }
{
    (b == 0) | ((a == 2147483648) & (b == 4294967295))
}

// The quotient.
fn quot(a: u32, b: u32) -> Applied
    ensures { result ≡ divided a b (quot_of a b) }
{
    if no_quotient(a, b) {
        return Applied::Arith;
    }
    let x = signed(a);
    let y = signed(b);
    Applied::Int(bits(x / y))
}

// The remainder.
fn rem(a: u32, b: u32) -> Applied
    ensures { result ≡ divided a b (rem_of a b) }
{
    if no_quotient(a, b) {
        return Applied::Arith;
    }
    let x = signed(a);
    let y = signed(b);
    Applied::Int(bits(x % y))
}

// Whether both shifts by a count raise arith in an edition.
fn no_shift(edition: u8, count: u32) -> bool
    ensures { result ≡ not (edition == 0) && no_shift count }
{
    (edition != 0) & (32 <= count)
}

// The shift to the left.
fn shl(edition: u8, a: u32, b: u32) -> Applied
    ensures { result ≡ shifted edition (shl_of a) b }
{
    if no_shift(edition, b) {
        return Applied::Arith;
    }
    Applied::Int(a.wrapping_shl(b))
}

// The shift to the right.
fn shr(edition: u8, a: u32, b: u32) -> Applied
    ensures { result ≡ shifted edition (shr_of a) b }
{
    if no_shift(edition, b) {
        return Applied::Arith;
    }
    Applied::Int(bits(signed(a).wrapping_shr(b)))
}

// Whether a is less than b.
fn lt(a: u32, b: u32) -> bool
    ensures { result ≡ lt_of a b }
{
    signed(a) < signed(b)
}

// Whether a is at most b.
fn le(a: u32, b: u32) -> bool
    ensures { result ≡ le_of a b }
{
    signed(a) <= signed(b)
}

// What operator number op gives in the edition of a file, which a shift alone asks for.
pub fn apply(file: &[u8], op: u8, a: u32, b: u32) -> Applied
    requires { 12 ≤ length file.now }
    ensures { result ≡ applied (edition_of file.now) op a b }
{
    match op {
        0 => Applied::Int(add(a, b)),
        1 => Applied::Int(sub(a, b)),
        2 => Applied::Int(mul(a, b)),
        3 => quot(a, b),
        4 => rem(a, b),
        5 => shl(edition_of(file), a, b),
        6 => shr(edition_of(file), a, b),
        7 => Applied::Int(a & b),
        8 => Applied::Int(a | b),
        9 => Applied::Int(a ^ b),
        10 => Applied::Truth(lt(a, b)),
        11 => Applied::Truth(le(a, b)),
        12 => Applied::Truth(lt(b, a)),
        13 => Applied::Truth(le(b, a)),
        14 => Applied::Truth(a == b),
        15 => Applied::Truth(a != b),
        _ => Applied::Arith,
    }
}
