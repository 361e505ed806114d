// The fields of nodes, and their children.
ghost use Rattle.std.specs.Prelude.{◌≡◌, ◌+◌, ◌*◌, ◌-◌, ◌≤◌, ◌<◌, length};
ghost use Rattle.std.specs.Iterator.{YieldsFirst, item_count};
ghost use Rattle.records.specs.Fields.{kind_at, a_at, b_at, size_at};
ghost use Rattle.records.specs.Children.{arity_of, arity_at};
ghost use Rattle.records.specs.Numbered.{left_of};

// The kind of node i of a part.
pub fn kind_at(part: &[u8], i: usize) -> u8
    requires { 12 * i + 12 ≤ length part.now }
    ensures { result ≡ kind_at part.now i }
{
    part[12 * i + 2]
}

// Its field a.
pub fn a_at(part: &[u8], i: usize) -> u8
    requires { 12 * i + 12 ≤ length part.now }
    ensures { result ≡ a_at part.now i }
{
    part[12 * i + 3]
}

// Its field b.
pub fn b_at(part: &[u8], i: usize) -> u32
    requires { 12 * i + 12 ≤ length part.now }
    ensures { result ≡ b_at part.now i }
{
    crate::u32_at(part, 12 * i + 4)
}

// Its size.
pub fn size_at(part: &[u8], i: usize) -> usize
    requires { 12 * i + 12 ≤ length part.now }
    ensures { (result ≡ size_at part.now i) × (result < 4294967296) }
{
    crate::u32_at(part, 12 * i + 8) as usize
}

// The child before the one at c.
pub fn prior(part: &[u8], c: usize) -> usize
    requires { 12 * c + 12 ≤ length part.now }
    ensures { result ≡ c - size_at part.now c }
{
    crate::minus(c, size_at(part, c))
}

// How many children a node of that kind has; a is a call's count of arguments; by kind.
fn arity(kind: u8, a: u8) -> usize
    ensures { (result ≡ arity_of kind a) × (result < 256) }
{
    match kind {
        3 => 2,
        4 => 2,
        5 => crate::wide(a) as usize,
        7 => 2,
        8 => 1,
        9 => 1,
        10 => 3,
        11 => 2,
        12..=14 => 1,
        _ => 0,
    }
}

// The arity of node i of a part.
pub fn arity_at(part: &[u8], i: usize) -> usize
    requires { 12 * i + 12 ≤ length part.now }
    ensures { (result ≡ arity_at part.now i) × (result < 256) }
{
    arity(kind_at(part, i), a_at(part, i))
}

// The children of a node of a part that are still to come: each with its number, the last first.
#[derive(Drop)]
pub struct Children<'a> {
    pub part: &'a [u8],
    pub left: usize,
    pub last: usize,
}

impl<'a> Iterator for Children<'a> {
    type Item = (usize, usize);

    ghost can_next = { λ s. 12 * s.last + 12 ≤ length s.part.now };

    ghost next_gives = { YieldsFirst (λ s. left_of s.part.now s.left s.last) };

    ghost remaining = { item_count (λ s. left_of s.part.now s.left s.last) };

    fn next(&mut self) -> Option<(usize, usize)> {
        if self.left == 0 {
            return None;
        }
        self.left -= 1;
        let child = self.last;
        self.last = prior(self.part, child);
        Some((self.left, child))
    }
}

// The children of node i of a part.
pub fn children_of(part: &[u8], i: usize) -> Children<'_>
    requires { 12 * i + 12 ≤ length part.now }
    ensures { (result.part.now ≡ part.now) × (result.left ≡ arity_at part.now i) × (result.last ≡ i - 1) × (result.left < 256) }
{
    Children {
        part,
        left: arity_at(part, i),
        last: crate::minus(i, 1),
    }
}
