// Whether a running state is fit, with a table of five words a node that is as long as the file asks for.
ghost use Rattle.std.specs.Prelude.{◌*◌, ◌≤◌, ◌<◌, ℕ};
ghost use Rattle.records.specs.Format.{most_nodes};
ghost use Rattle.records.specs.Fields.{functions, count_of};
ghost use Rattle.fit_state.specs.Running.{RunningIn, FitAnswer};

use crate::running_fits;
use records::format::{MIDDLE_NODES, MOST_NODES, SHORT_NODES, TINY_NODES};

// The words of a table for as many nodes as each kind of file has at most.
pub const TINY_WORDS: usize = 5 * TINY_NODES;

pub const SHORT_WORDS: usize = 5 * SHORT_NODES;

pub const MIDDLE_WORDS: usize = 5 * MIDDLE_NODES;

pub const MOST_WORDS: usize = 5 * MOST_NODES;

// Whether the running state is fit for the program of a file whose parts a table of so many words has room for.
pub fn table_fits<const WORDS: usize>(file: &[u8], m: &[u32]) -> bool
    requires file { RunningIn file.now m.now }
    requires room { ((g : ℕ) → g < functions file.now → 5 * count_of file.now g ≤ WORDS) × (WORDS ≤ 5 * most_nodes) }
    ensures { FitAnswer file.now m.now result }
{
    let mut table = [0u64; WORDS];
    running_fits(file, &mut table, m)
}

// The same with a large table; the call to itself, which no accepted file comes to, keeps the table out of the caller's frame.
#[inline(never)]
pub fn apart_fits<const WORDS: usize>(file: &[u8], m: &[u32], k: usize) -> bool
    requires file { RunningIn file.now m.now }
    requires room { ((g : ℕ) → g < functions file.now → 5 * count_of file.now g ≤ WORDS) × (WORDS ≤ 5 * most_nodes) }
    ensures { FitAnswer file.now m.now result }
{
    let fit = table_fits::<WORDS>(file, m);
    if 0 < k {
        return fit & apart_fits::<WORDS>(file, m, k - 1);
    }
    fit
}
