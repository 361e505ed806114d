// The padded message, byte by byte, with no copy of the message.
ghost use Rattle.std.specs.Prelude.{◌≡◌, ◌+◌, ◌<◌, ◌≤◌, length, slice_index};
ghost use Rattle.desk_digest.specs.Padding.{padded};
ghost use Rattle.desk_digest.specs.Sha256.{word_at};

// The byte at i of the padded message.
fn padded_byte(bytes: &[u8], i: usize) -> u8
    requires { i < length (padded bytes.now) }
    ensures { result ≡ slice_index (padded bytes.now) i }
{
    let n = bytes.len();
    if i < n {
        return bytes[i];
    }
    if i == n {
        return 0x80;
    }
    let last = (n + 72) / 64 * 64 - 8;
    if i < last {
        return 0;
    }
    let bits = n.wrapping_mul(8);
    bits.to_be_bytes()[i - last]
}

// The word at a place of the padded message.
pub fn word_at(bytes: &[u8], at: usize) -> u32
    requires { at + 4 ≤ length (padded bytes.now) }
    ensures { result ≡ word_at (padded bytes.now) at }
{
    let b0 = padded_byte(bytes, at);
    let b1 = padded_byte(bytes, at + 1);
    let b2 = padded_byte(bytes, at + 2);
    let b3 = padded_byte(bytes, at + 3);
    u32::from_be_bytes([b0, b1, b2, b3])
}
