// The records of a procedure file: numbers in bytes, the fields of the header and of functions, and what a search finds.
#![tactic(auto)]

pub mod format;
pub mod nodes;
pub mod starts;

ghost use Rattle.std.specs.Prelude.{◌≡◌, Bool, ℕ, ◌+◌, ◌*◌, ◌-◌, ◌^◌, ◌≤◌, ◌<◌, ltb, length};
ghost use Rattle.records.specs.Bytes.{u16_at, u32_at};
ghost use Rattle.records.specs.Fields.{mark_at, functions, nodes, edition_of, result_of, params_of, vars_of, mask_of, count_of};
ghost use Rattle.records.specs.Search.{At, first_of, shift, or_else};

// The place and the item that a search finds.
#[derive(Clone, Copy)]
pub struct Found {
    pub place: usize,
    pub item: u32,
}

// The place counted from `origin` on.
pub fn shift_by(found: Option<Found>, origin: usize) -> Option<Found>
    requires { (i x : ℕ) → found ≡ At i x → origin + i < 65536 }
    ensures { result ≡ shift origin found }
{
    let Found { place, item } = found?;
    Some(Found {
        place: origin + place,
        item,
    })
}

// What the first search found, or else the second.
pub fn or_else(found: Option<Found>, later: Option<Found>) -> Option<Found>
    ensures { result ≡ or_else found later }
{
    found.or(later)
}

// The lowest of n numbers that passes a test, as the place that is found.
pub fn first_of<F: Fn(usize) -> bool>(n: usize, test: F) -> Option<Found>
    requires { (i : ℕ) → i < n → F.pre test i }
    ensures { (p : ℕ → Bool) → ((i : ℕ) (b : Bool) → i < n → F.post test i b → b ≡ p i) → result ≡ first_of p n }
{
    for place in 0..n {
        if test(place) {
            return Some(Found { place, item: 0 });
        }
    }
    None
}

// A byte as a wider number.
pub fn wide(x: u8) -> u32
    ensures { (result ≡ x) × (result < 256) }
{
    x as u32
}

// The difference, 0 where it would be negative.
pub fn minus(a: usize, b: usize) -> usize
    ensures { result ≡ a - b }
{
    if b <= a { a - b } else { 0 }
}

// The two bytes at i as a number.
pub fn u16_at(s: &[u8], i: usize) -> u32
    requires { i + 2 ≤ length s.now }
    ensures { (result ≡ u16_at s.now i) × (result < 65536) }
{
    wide(s[i]) + 256 * wide(s[i + 1])
}

// The four bytes at i as a number.
pub fn u32_at(s: &[u8], i: usize) -> u32
    requires { i + 4 ≤ length s.now }
    ensures { result ≡ u32_at s.now i }
{
    u16_at(s, i) + 65536 * u16_at(s, i + 2)
}

// The mark of record k.
pub fn mark_at(s: &[u8], k: usize) -> u32
    requires { 12 * k + 12 ≤ length s.now }
    ensures { result ≡ mark_at s.now k }
{
    u16_at(s, 12 * k)
}

// The header's function count.
pub fn function_count(file: &[u8]) -> usize
    requires { 12 ≤ length file.now }
    ensures { (result ≡ functions file.now) × (result < 65536) }
{
    u16_at(file, 2) as usize
}

// The header's node count.
pub fn node_count(file: &[u8]) -> usize
    requires { 12 ≤ length file.now }
    ensures { (result ≡ nodes file.now) × (result < 4294967296) }
{
    u32_at(file, 4) as usize
}

// The header's edition.
pub fn edition_of(file: &[u8]) -> u8
    requires { 12 ≤ length file.now }
    ensures { result ≡ edition_of file.now }
{
    file[8]
}

// The result type of function f.
pub fn result_of(file: &[u8], f: usize) -> u8
    requires { 12 * (1 + f) + 12 ≤ length file.now }
    ensures { result ≡ result_of file.now f }
{
    file[12 * (1 + f) + 2]
}

// Its parameter count.
pub fn params_of(file: &[u8], f: usize) -> u8
    requires { 12 * (1 + f) + 12 ≤ length file.now }
    ensures { result ≡ params_of file.now f }
{
    file[12 * (1 + f) + 3]
}

// Its variable count.
pub fn vars_of(file: &[u8], f: usize) -> u8
    requires { 12 * (1 + f) + 12 ≤ length file.now }
    ensures { result ≡ vars_of file.now f }
{
    file[12 * (1 + f) + 4]
}

// Its mask of bool parameters.
pub fn mask_of(file: &[u8], f: usize) -> u8
    requires { 12 * (1 + f) + 12 ≤ length file.now }
    ensures { result ≡ mask_of file.now f }
{
    file[12 * (1 + f) + 5]
}

// Whether a mask of bool parameters has no bit from p on.
pub fn mask_fits(mask: u8, p: u8) -> bool
    ensures { result ≡ ltb mask (2 ^ p) }
{
    if p <= format::MOST_PARAMETERS {
        wide(mask) < (1u32 << p)
    } else {
        true
    }
}

// Its part's node count.
pub fn count_of(file: &[u8], f: usize) -> usize
    requires { 12 * (1 + f) + 12 ≤ length file.now }
    ensures { (result ≡ count_of file.now f) × (result < 4294967296) }
{
    u32_at(file, 12 * (1 + f) + 8) as usize
}
