// Words of lent memory: cleared, moved, tested for zeros.
#![tactic(auto)]

ghost use Rattle.std.specs.Prelude.{◌≡◌, [], ◌∷◌, ◌+◌, ◌*◌, ◌≤◌, take, length, replicate};
ghost use Rattle.words.specs.Blocks.{puts, all_zero};
ghost use Rattle.words.specs.Moves.{moved};

// Sets the n words at a place to zero.
pub fn zero_at(m: &mut [u32], at: usize, n: usize)
    requires { at + n ≤ length m.old }
    ensures { m.new ≡ puts m.old at 0 (replicate n 0) }
{
    let end = at + n;
    m[at..end].fill(0);
}

// Stores four words at a place. Each has a store of its own, since copy_from_slice takes the words through memory in the machine's step.
pub fn put_four(m: &mut [u32], at: usize, a: u32, b: u32, c: u32, d: u32)
    requires { at + 4 ≤ length m.old }
    ensures { m.new ≡ puts m.old at 0 (a ∷ b ∷ c ∷ d ∷ []) }
{
    m[at] = a;
    m[at + 1] = b;
    m[at + 2] = c;
    m[at + 3] = d;
}

// Moves the four words at a place to a place below them, and leaves zeros.
fn move_four(m: &mut [u32], from: usize, to: usize)
    requires { (to + 4 ≤ from) × (from + 4 ≤ length m.old) }
    ensures { m.new ≡ moved m.old from to 4 }
{
    let a = m[from];
    let b = m[from + 1];
    let c = m[from + 2];
    let d = m[from + 3];
    put_four(m, to, a, b, c, d);
    put_four(m, from, 0, 0, 0, 0)
}

// Moves n times four words at a place to a place below all of them, and leaves zeros.
pub fn move_down(m: &mut [u32], from: usize, to: usize, n: usize)
    requires { (to + n * 4 ≤ from) × (from + n * 4 ≤ length m.old) }
    ensures { m.new ≡ moved m.old from to (n * 4) }
{
    for i in 0..n {
        move_four(m, from + i * 4, to + i * 4);
    }
}

// Whether every word is zero, one by one: by index, since a slice's iterator hands on pairs with a pointer, which c/port carries to no other processor.
fn each_zero(s: &[u32]) -> bool
    ensures { result ≡ all_zero s.now }
{
    for i in 0..s.len() {
        if s[i] != 0 {
            return false;
        }
    }
    true
}

// Whether the first eight words are zero, with one branch.
fn eight_zero(s: &[u32]) -> bool
    requires { 8 ≤ length s.now }
    ensures { result ≡ all_zero (take 8 s.now) }
{
    let low = (s[0] == 0) & ((s[1] == 0) & ((s[2] == 0) & (s[3] == 0)));
    let high = (s[4] == 0) & ((s[5] == 0) & ((s[6] == 0) & (s[7] == 0)));
    low & high
}

// Whether every word is zero, eight at a time: a while, since chunks hand on such pairs, too.
fn by_eights(s: &[u32]) -> bool
    ensures { result ≡ all_zero s.now }
{
    let n = s.len();
    let mut at = 0;
    while 8 <= n - at {
        if !eight_zero(&s[at..]) {
            return false;
        }
        at += 8;
    }
    each_zero(&s[at..])
}

// Whether the first 32 words are zero, with one branch.
fn many_zero(s: &[u32]) -> bool
    requires { 32 ≤ length s.now }
    ensures { result ≡ all_zero (take 32 s.now) }
{
    eight_zero(s) & eight_zero(&s[8..]) & eight_zero(&s[16..]) & eight_zero(&s[24..])
}

// Whether every word is zero, 32 at a time.
pub fn all_zero(s: &[u32]) -> bool
    ensures { result ≡ all_zero s.now }
{
    let n = s.len();
    let mut at = 0;
    while 32 <= n - at {
        if !many_zero(&s[at..]) {
            return false;
        }
        at += 32;
    }
    by_eights(&s[at..])
}
