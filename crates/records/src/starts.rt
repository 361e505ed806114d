// Where the parts of a file start.
ghost use Rattle.records.specs.Parts.{Laid};
ghost use Rattle.records.specs.Starts.{Starts};

use crate::format::{MOST_FUNCTIONS, RECORD};
use crate::{count_of, function_count};

// The first byte of each function's part.
pub fn starts_of(file: &[u8]) -> [usize; MOST_FUNCTIONS]
    requires { Laid file.now }
    ensures { Starts file.now result }
{
    let functions = function_count(file);
    let mut starts = [0usize; MOST_FUNCTIONS];
    let mut start = RECORD * (1 + functions);
    for f in 0..functions {
        starts[f] = start;
        start += RECORD * count_of(file, f);
    }
    starts
}
