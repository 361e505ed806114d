// The parts of an accepted file.
ghost use Rattle.std.specs.Prelude.{◌≡◌, ◌<◌};
ghost use Rattle.records.specs.Fields.{functions};
ghost use Rattle.records.specs.Starts.{Starts};
ghost use Rattle.spec_language.specs.Check.{accepted, check_of};

use fit_nodes::Part;
use records::count_of;
use records::format::{MOST_FUNCTIONS, RECORD};

// An accepted file, and where the part of each of its functions starts.
#[derive(Clone, Copy)]
pub struct Parts<'a> {
    pub file: &'a [u8],
    pub starts: &'a [usize; MOST_FUNCTIONS],
    pub ghost passed: { check_of file.now ≡ accepted },
    pub ghost laid: { Starts file.now starts.now },
}

impl<'a> Parts<'a> {
    // The part of function f.
    pub fn part(&self, f: usize) -> Part<'a>
        requires { f < functions self.now.file.now }
        ensures { (result.file.now ≡ self.now.file.now) × (result.function ≡ f) }
    {
        let file = self.file;
        let nodes = count_of(file, f);
        let from = self.starts[f];
        let end = from + RECORD * nodes;
        Part {
            file,
            function: f,
            bytes: &file[from..end],
            nodes,
        }
    }
}
