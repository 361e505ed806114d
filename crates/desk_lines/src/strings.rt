// A text as a JSON string: what is no UTF-8 becomes the replacement character, so that any name of a file makes a string.
ghost use Rattle.std.specs.Prelude.{◌≡◌, ◌<◌, ◌≤◌, ◌-◌, length, get_or};
ghost use Rattle.texts.specs.Room.{Ends, EndsInside, Lent};

use texts::Text;

// Puts a byte as two hexadecimal digits.
pub fn put_hex(b: u8, out: &mut Text<'_>)
    ensures lent { Lent out.old.bytes out.new.bytes }
    ensures last { EndsInside out.new.bytes.now out.new.used }
{
    let digits = b"0123456789abcdef";
    out.put_byte(digits[(b / 16) as usize]);
    out.put_byte(digits[(b % 16) as usize]);
}

// Puts a byte of UTF-8; a control byte, a quotation mark and a backslash are escaped.
fn put_escaped(b: u8, out: &mut Text<'_>)
    ensures lent { Lent out.old.bytes out.new.bytes }
{
    match b {
        0..=31 | b'"' | b'\\' | 127 => {
            out.put(b"\\u00");
            put_hex(b, out);
        }
        _ => out.put_byte(b),
    }
}

// Puts a text.
fn put_valid(text: &str, out: &mut Text<'_>)
    ensures lent { Lent out.old.bytes out.new.bytes }
{
    for b in text.bytes() {
        put_escaped(b, out);
    }
}

// Puts the replacement character for each byte of what is no text.
fn put_replaced(bytes: &[u8], out: &mut Text<'_>)
    ensures lent { Lent out.old.bytes out.new.bytes }
{
    for _ in bytes {
        out.put(b"\\ufffd");
    }
}

// Puts the characters of a text.
fn put_characters(text: &[u8], out: &mut Text<'_>)
    ensures lent { Lent out.old.bytes out.new.bytes }
{
    for chunk in text.utf8_chunks() {
        put_valid(chunk.valid(), out);
        put_replaced(chunk.invalid(), out);
    }
}

// Puts a text as a JSON string.
pub fn put_string(text: &[u8], out: &mut Text<'_>)
    ensures lent { Lent out.old.bytes out.new.bytes }
    ensures last { Ends out.new.bytes.now out.new.used 34 }
{
    out.put_byte(b'"');
    put_characters(text, out);
    out.put_byte(b'"');
}
