// How many files passed, how many each question refused, and how many could not be read.
ghost use Rattle.std.specs.Prelude.{◌≡◌, ◌+◌, ◌-◌, ◌%◌, ◌^◌, ◌<◌, ◌≤◌, length, replicate, slice_index, slice_set};
ghost use Rattle.texts.specs.Room.{Ends, Lent};

use texts::Text;

// How many questions the check asks.
pub const QUESTIONS: usize = 14;

// How many files passed, how many each question refused, the first question's first, and how many could not be read.
#[derive(Clone, Copy)]
pub struct Tally {
    pub passed: u64,
    pub refused: [u64; QUESTIONS],
    pub unread: u64,
}

impl Tally {
    // A tally of no files.
    pub fn new() -> Tally
        ensures none { (result.passed ≡ 0) × (result.unread ≡ 0) }
        ensures of_questions { result.refused ≡ replicate 14 0 }
    {
        Tally {
            passed: 0,
            refused: [0; QUESTIONS],
            unread: 0,
        }
    }

    // Counts a file that passed.
    pub fn count_passed(&mut self)
        ensures counted { self.new.passed ≡ (self.old.passed + 1) % 2 ^ 64 }
        ensures others { (self.new.refused ≡ self.old.refused) × (self.new.unread ≡ self.old.unread) }
    {
        self.passed = self.passed.wrapping_add(1);
    }

    // Counts a file by the question that refused it.
    pub fn count_refused(&mut self, question: u8)
        ensures counted { 1 ≤ question → question ≤ 14 → self.new.refused ≡ slice_set self.old.refused (question - 1) ((slice_index self.old.refused (question - 1) + 1) % 2 ^ 64) }
        ensures others { (self.new.passed ≡ self.old.passed) × (self.new.unread ≡ self.old.unread) }
    {
        if (1 <= question) & (question <= 14) {
            let i = question as usize - 1;
            self.refused[i] = self.refused[i].wrapping_add(1);
        }
    }

    // Counts a file that could not be read.
    pub fn count_unread(&mut self)
        ensures counted { self.new.unread ≡ (self.old.unread + 1) % 2 ^ 64 }
        ensures others { (self.new.passed ≡ self.old.passed) × (self.new.refused ≡ self.old.refused) }
    {
        self.unread = self.unread.wrapping_add(1);
    }

    // How many files were refused.
    fn all_refused(&self) -> u64 {
        let mut sum = 0u64;
        for n in &self.refused {
            sum = sum.wrapping_add(*n);
        }
        sum
    }
}

// Puts a line for each question that refused files.
fn put_questions(tally: &Tally, out: &mut Text<'_>)
    ensures lent { Lent out.old.bytes out.new.bytes }
{
    for (i, n) in tally.refused.iter().enumerate() {
        if *n != 0 {
            out.put_numbered(b"refused by question ", i as u64 + 1);
            out.put_numbered(b": ", *n);
            out.put(b"\n");
        }
    }
}

// Puts the line with the counts of all files.
fn put_total(tally: &Tally, out: &mut Text<'_>)
    ensures lent { Lent out.old.bytes out.new.bytes }
    ensures last { Ends out.new.bytes.now out.new.used 10 }
{
    let refused = tally.all_refused();
    let files = tally
        .passed
        .wrapping_add(refused)
        .wrapping_add(tally.unread);
    out.put_numbered(b"files: ", files);
    out.put_numbered(b", passed: ", tally.passed);
    out.put_numbered(b", refused: ", refused);
    out.put_numbered(b", not read: ", tally.unread);
    out.put(b"\n");
}

// Puts the lines with the counts, that of all files last.
pub fn put_counts(tally: &Tally, out: &mut Text<'_>)
    ensures lent { Lent out.old.bytes out.new.bytes }
    ensures last { Ends out.new.bytes.now out.new.used 10 }
{
    put_questions(tally, out);
    put_total(tally, out);
}
