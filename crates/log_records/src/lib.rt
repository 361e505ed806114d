// Records of steps in a lent log: what changed in the words of an image, put into bytes and taken out again.
#![tactic(auto)]

pub mod extent;
pub mod images;
pub mod last;

ghost use Rattle.std.specs.Prelude.{◌≡◌, List, ◌++◌, ℕ, ◌+◌, ◌*◌, ◌≤◌, length};
ghost use Rattle.words.specs.Blocks.{puts};
ghost use Rattle.spec_image.specs.Sizes.{size};
ghost use Rattle.spec_log.specs.Changes.{changes};
ghost use Rattle.spec_log.specs.Records.{two, four, change_bytes, word_bytes, record_of};
ghost use Rattle.log_records.specs.Ranges.{Alike};

use state_words::layout::FRAMES;

// The most changes of a record that has not all words, and the number of one that has.
pub const MOST_CHANGES: u32 = 10922;

pub const WHOLE_NUMBER: u32 = 65535;

// The mark "BK" as a number.
pub const MARK: u32 = 19266;

// The bytes of a record that has all words, which no record is longer than.
pub const LONGEST: usize = 65540;

// Puts a number below 65,536 into two bytes. Each byte has a store of its own, here and below: copy_from_slice takes an array through memory.
fn put_u16(log: &mut [u8], at: usize, n: u32)
    requires { at + 2 ≤ length log.old }
    ensures { log.new ≡ puts log.old at 0 (two n) }
{
    log[at] = (n % 256) as u8;
    log[at + 1] = ((n >> 8) % 256) as u8;
}

// Puts a word into four bytes.
fn put_u32(log: &mut [u8], at: usize, w: u32)
    requires { at + 4 ≤ length log.old }
    ensures { log.new ≡ puts log.old at 0 (four w) }
{
    log[at] = (w % 256) as u8;
    log[at + 1] = ((w >> 8) % 256) as u8;
    log[at + 2] = ((w >> 16) % 256) as u8;
    log[at + 3] = ((w >> 24) % 256) as u8;
}

// The number of words that are not the same.
fn differing(a: &[u32], b: &[u32]) -> u32
    requires { (length a.now ≡ length b.now) × (length a.now ≤ size) }
    ensures { ((i : ℕ) → result ≡ length (changes i a.now b.now)) × (result ≤ size) }
{
    let mut k = 0u32;
    for i in 0..a.len() {
        if a[i] != b[i] {
            k += 1;
        }
    }
    k
}

// The number of changes between two images that are alike but for the words below p and those of frames below q.
pub fn count_changes(a: &[u32], b: &[u32], p: usize, q: usize) -> u32
    requires { Alike p q a.now b.now }
    ensures { (result ≡ length (changes 0 a.now b.now)) × (result ≤ size) }
{
    differing(&a[..p], &b[..p]) + differing(&a[FRAMES..q], &b[FRAMES..q])
}

// The bytes of the record of so many changes.
pub fn record_bytes(k: u32) -> usize
    ensures { (a b : List ℕ) → length a ≡ size → k ≡ length (changes 0 a b) → result ≡ length (record_of a b) }
{
    if k <= MOST_CHANGES {
        return 4 + 6 * (k as usize);
    }
    LONGEST
}

// Puts a place and the word that was there.
fn put_change(log: &mut [u8], at: usize, place: u32, word: u32)
    requires { at + 6 ≤ length log.old }
    ensures { log.new ≡ puts log.old at 0 (two place ++ four word) }
{
    put_u16(log, at, place);
    put_u32(log, at + 2, word);
}

// Puts each change of words from a place of the image on, word by word, and makes the words a the words b.
fn put_each(log: &mut [u8], at: usize, origin: usize, a: &mut [u32], b: &[u32]) -> usize
    requires { (length a.old ≡ length b.now) × (origin + length a.old ≤ size) × (at + 6 * length (changes origin a.old b.now) ≤ length log.old) }
    ensures end { result ≡ at + 6 * length (changes origin a.old b.now) }
    ensures log { log.new ≡ puts log.old at 0 (change_bytes (changes origin a.old b.now)) }
    ensures words { a.new ≡ b.now }
{
    let mut next = at;
    for i in 0..a.len() {
        let old = a[i];
        let new = b[i];
        if old != new {
            put_change(log, next, (origin + i) as u32, old);
            a[i] = new;
            next += 6;
        }
    }
    next
}

// Puts each change of words from a place of the image on, 32 words at a time, and makes the words a the words b.
fn put_changes(log: &mut [u8], at: usize, origin: usize, a: &mut [u32], b: &[u32]) -> usize
    requires { (length a.old ≡ length b.now) × (origin + length a.old ≤ size) × (at + 6 * length (changes origin a.old b.now) ≤ length log.old) }
    ensures end { result ≡ at + 6 * length (changes origin a.old b.now) }
    ensures log { log.new ≡ puts log.old at 0 (change_bytes (changes origin a.old b.now)) }
    ensures words { a.new ≡ b.now }
{
    let n = a.len();
    let mut next = at;
    let mut i = 0;
    while 32 <= n - i {
        let end = i + 32;
        if differing(&a[i..end], &b[i..end]) != 0 {
            next = put_each(log, next, origin + i, &mut a[i..end], &b[i..end]);
        }
        i = end;
    }
    put_each(log, next, origin + i, &mut a[i..], &b[i..])
}

// Puts all words, and makes them the words b.
fn put_words(log: &mut [u8], at: usize, a: &mut [u32], b: &[u32])
    requires { (length a.old ≡ length b.now) × (at + 4 * length a.old ≤ length log.old) }
    ensures log { log.new ≡ puts log.old at 0 (word_bytes a.old) }
    ensures words { a.new ≡ b.now }
{
    for i in 0..a.len() {
        put_u32(log, at + 4 * i, a[i]);
        a[i] = b[i];
    }
}

// Puts each change between two images that are alike but for the words below p and those of frames below q, and makes a the image b.
fn put_all_changes(log: &mut [u8], at: usize, a: &mut [u32], b: &[u32], p: usize, q: usize) -> usize
    requires { Alike p q a.old b.now × (at + 6 * length (changes 0 a.old b.now) ≤ length log.old) }
    ensures end { result ≡ at + 6 * length (changes 0 a.old b.now) }
    ensures log { log.new ≡ puts log.old at 0 (change_bytes (changes 0 a.old b.now)) }
    ensures words { a.new ≡ b.now }
{
    let next = put_changes(log, at, 0, &mut a[..p], &b[..p]);
    put_changes(log, next, FRAMES, &mut a[FRAMES..q], &b[FRAMES..q])
}

// Puts the record of a step that made the image a the image b by k changes, and makes a that image.
pub fn put_record(log: &mut [u8], at: usize, a: &mut [u32], b: &[u32], p: usize, q: usize, k: u32)
    requires { Alike p q a.old b.now × (k ≡ length (changes 0 a.old b.now)) × (at + length (record_of a.old b.now) ≤ length log.old) }
    ensures log { log.new ≡ puts log.old at 0 (record_of a.old b.now) }
    ensures words { a.new ≡ b.now }
{
    put_u16(log, at, MARK);
    if k <= MOST_CHANGES {
        let end = put_all_changes(log, at + 2, a, b, p, q);
        put_u16(log, end, k);
        return;
    }
    put_words(log, at + 2, a, b);
    put_u16(log, at + 65538, WHOLE_NUMBER);
}
