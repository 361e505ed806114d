// Text for standard output, gathered in a lent buffer that is written out whenever it is full.
#![tactic(auto)]

pub mod kinds;

ghost use Rattle.std.specs.Prelude.{◌≡◌, min, ◌-◌, ◌≤◌, ◌<◌, [], ◌∷◌, length, take, get_or, slice_get, MatchOption};
ghost use Rattle.texts.specs.Room.{Put, Ends, EndsInside, Lent};

// A lent buffer, and how many bytes wait at its start.
//
// It is no `fmt::Write`: `write!` answers a Result, while what is put here cannot fail, and what waits then is promised in every case.
#[derive(Drop)]
pub struct Text<'a> {
    pub bytes: &'a mut [u8],
    pub used: usize,
    pub ghost inside: { used ≤ length bytes.now },
}

impl<'a> Text<'a> {
    // A text of which nothing waits yet.
    pub fn new(bytes: &'a mut [u8]) -> Text<'a>
        ensures lent { result.bytes.ghost_name ≡ bytes.entry.ghost_name }
        ensures none { result.used ≡ 0 }
        ensures whole { length result.bytes.now ≡ length bytes.old }
    {
        Text { bytes, used: 0 }
    }

    // A text of whose buffer so many bytes wait already, or all where it has fewer.
    pub fn resumed(bytes: &'a mut [u8], waiting: usize) -> Text<'a>
        ensures lent { result.bytes.ghost_name ≡ bytes.entry.ghost_name }
        ensures used { result.used ≡ min waiting (length bytes.old) }
        ensures same { result.bytes.now ≡ bytes.old }
    {
        let used = waiting.min(bytes.len());
        Text { bytes, used }
    }

    // The bytes that wait.
    pub fn waiting(&self) -> &[u8]
        ensures { result.now ≡ take self.now.used self.now.bytes.now }
    {
        &self.bytes[..self.used]
    }

    // Writes out the bytes that wait, so that none does.
    pub fn write_out(&mut self)
        ensures lent { Lent self.old.bytes self.new.bytes }
        ensures none { self.new.used ≡ 0 }
        ensures same { self.new.bytes.now ≡ self.old.bytes.now }
    {
        io::write_all(1, self.waiting());
        self.used = 0;
    }

    // Makes room for a byte: writes out a full buffer.
    fn make_room(&mut self)
        ensures lent { Lent self.old.bytes self.new.bytes }
        ensures same { self.new.bytes.now ≡ self.old.bytes.now }
        ensures used { (self.new.used ≤ self.old.used) × (self.old.used < length self.old.bytes.now → self.new.used ≡ self.old.used) }
        ensures room { 0 < length self.old.bytes.now → self.new.used < length self.old.bytes.now }
    {
        if self.bytes.len() <= self.used {
            self.write_out();
        }
    }

    // Puts a byte after those that wait; a buffer of no bytes takes nothing.
    pub fn put_byte(&mut self, b: u8)
        ensures lent { Lent self.old.bytes self.new.bytes }
        ensures put { Put self.old.bytes.now self.old.used (b ∷ []) self.new.bytes.now self.new.used }
        ensures last { Ends self.new.bytes.now self.new.used b }
    {
        self.make_room();
        if self.used < self.bytes.len() {
            self.bytes[self.used] = b;
            self.used += 1;
        }
    }

    // Puts a text after the bytes that wait.
    pub fn put(&mut self, text: &[u8])
        ensures lent { Lent self.old.bytes self.new.bytes }
        ensures put { Put self.old.bytes.now self.old.used text.now self.new.bytes.now self.new.used }
        ensures last { 0 < length text.now → Ends self.new.bytes.now self.new.used (get_or text.now (length text.now - 1) 0) }
    {
        for b in text {
            self.put_byte(*b);
        }
    }

    // Puts a number in decimal.
    pub fn put_decimal(&mut self, n: u64)
        ensures lent { Lent self.old.bytes self.new.bytes }
        ensures last { EndsInside self.new.bytes.now self.new.used }
    {
        let mut digits = [0u8; 20];
        let k = io::decimal(n, &mut digits);
        self.put(&digits[..k]);
    }

    // Puts a text and a number after it.
    pub fn put_numbered(&mut self, text: &[u8], n: u64)
        ensures lent { Lent self.old.bytes self.new.bytes }
        ensures last { EndsInside self.new.bytes.now self.new.used }
    {
        self.put(text);
        self.put_decimal(n);
    }

    // Puts the int whose 32 bits are given, with its sign.
    pub fn put_int(&mut self, bits: u32)
        ensures lent { Lent self.old.bytes self.new.bytes }
        ensures last { EndsInside self.new.bytes.now self.new.used }
    {
        if bits < 2147483648 {
            self.put_decimal(bits as u64);
        } else {
            self.put_numbered(b"-", (u32::MAX - bits) as u64 + 1);
        }
    }

    // Puts a refusal as a line.
    pub fn put_refusal(&mut self, question: u8, place: usize, item: u32)
        ensures lent { Lent self.old.bytes self.new.bytes }
        ensures last { Ends self.new.bytes.now self.new.used 10 }
    {
        self.put_numbered(b"refused ", question as u64);
        self.put_numbered(b" place ", place as u64);
        self.put_numbered(b" item ", item as u64);
        self.put_byte(b'\n');
    }

    // Puts word k of a list, and nothing where it has no such word.
    pub fn put_word(&mut self, words: &[&str], k: usize)
        ensures lent { Lent self.old.bytes self.new.bytes }
        ensures put { MatchOption (slice_get words.now k) (Put self.old.bytes.now self.old.used [] self.new.bytes.now self.new.used) (λ w. Put self.old.bytes.now self.old.used w.now self.new.bytes.now self.new.used) }
    {
        let word = word_of(words, k).as_bytes();
        self.put(word);
    }
}

// Word k of a list, and the empty one where it has no such word.
pub fn word_of<'a>(words: &[&'a str], k: usize) -> &'a str
    ensures { MatchOption (slice_get words.now k) (result.now ≡ []) (λ w. result.now ≡ w.now) }
{
    match words.get(k) {
        Some(word) => *word,
        None => "",
    }
}
