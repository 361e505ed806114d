// The last record of a log: found from its end, and its words put back.
ghost use Rattle.std.specs.Prelude.{◌≡◌, true, ◌+◌, ◌*◌, ◌<◌, ◌≤◌, length};
ghost use Rattle.varset.specs.Lowest.{pick};
ghost use Rattle.spec_image.specs.Sizes.{size};
ghost use Rattle.spec_log.specs.Changes.{restored};
ghost use Rattle.spec_log.specs.Records.{bytes_of, changes_at, words_at, last_bytes, has_record, earlier};

use crate::{LONGEST, MARK, WHOLE_NUMBER};
use records::{u16_at, u32_at};

// The bytes of a record by its number.
fn bytes_of(n: u32) -> usize
    requires { n < 65536 }
    ensures { result ≡ bytes_of n }
{
    if n == WHOLE_NUMBER {
        return LONGEST;
    }
    4 + 6 * (n as usize)
}

// The bytes of the last record of a log of which so much is used; 0 where there is none.
pub fn last_bytes(log: &[u8], used: usize) -> usize
    ensures { result ≡ pick (has_record log.now used) (last_bytes log.now used) 0 }
{
    if log.len() < used || used < 4 {
        return 0;
    }
    let bytes = bytes_of(u16_at(log, used - 2));
    if LONGEST < bytes || used < bytes || u16_at(log, used - bytes) != MARK {
        return 0;
    }
    bytes
}

// Puts back the words of n changes.
fn restore_changes(log: &[u8], at: usize, n: usize, m: &mut [u32])
    requires { at + 6 * n ≤ length log.now }
    ensures { m.new ≡ restored (changes_at log.now at n) m.old }
{
    let words = m.len();
    for i in 0..n {
        let next = at + 6 * i;
        let place = u16_at(log, next) as usize;
        if place < words {
            m[place] = u32_at(log, next + 2);
        }
    }
}

// Puts back all words.
fn restore_words(log: &[u8], at: usize, m: &mut [u32])
    requires { at + 4 * length m.old ≤ length log.now }
    ensures { m.new ≡ words_at log.now at (length m.old) }
{
    for i in 0..m.len() {
        m[i] = u32_at(log, at + 4 * i);
    }
}

// Makes the image m the image before the step of the last record.
pub fn restore(log: &[u8], used: usize, m: &mut [u32])
    requires { (has_record log.now used ≡ true) × (length m.old ≡ size) }
    ensures { m.new ≡ earlier log.now used m.old }
{
    let n = u16_at(log, used - 2);
    let at = used - bytes_of(n) + 2;
    if n == WHOLE_NUMBER {
        restore_words(log, at, m);
    } else {
        restore_changes(log, at, n as usize, m);
    }
}
