// Whole images: copied and compared.
ghost use Rattle.std.specs.Prelude.{◌≡◌, ◌≤◌, length};
ghost use Rattle.words.specs.Blocks.{eq_words};
ghost use Rattle.spec_image.specs.Sizes.{size};

// Makes the words those of another slice of as many: by index, since copy_from_slice hands on pairs with a pointer, which c/port carries to no other processor.
pub fn copy(to: &mut [u32], from: &[u32])
    requires { length to.old ≡ length from.now }
    ensures { to.new ≡ from.now }
{
    for i in 0..to.len() {
        to[i] = from[i];
    }
}

// Whether two images have the same words.
pub fn is_same(a: &[u32], b: &[u32]) -> bool
    requires { (length a.now ≡ length b.now) × (length a.now ≤ size) }
    ensures { result ≡ eq_words a.now b.now }
{
    crate::differing(a, b) == 0
}
