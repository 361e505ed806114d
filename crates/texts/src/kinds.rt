// The names of operators and of kinds of nodes.
ghost use Rattle.texts.specs.Room.{EndsInside, Lent};

use crate::Text;

// Puts an operator as C0 writes it, or its number where there is none.
pub fn put_operator(a: u8, out: &mut Text<'_>)
    ensures lent { Lent out.old.bytes out.new.bytes }
    ensures last { EndsInside out.new.bytes.now out.new.used }
{
    match a {
        0 => out.put(b"+"),
        1 => out.put(b"-"),
        2 => out.put(b"*"),
        3 => out.put(b"/"),
        4 => out.put(b"%"),
        5 => out.put(b"<<"),
        6 => out.put(b">>"),
        7 => out.put(b"&"),
        8 => out.put(b"|"),
        9 => out.put(b"^"),
        10 => out.put(b"<"),
        11 => out.put(b"<="),
        12 => out.put(b">"),
        13 => out.put(b">="),
        14 => out.put(b"=="),
        15 => out.put(b"!="),
        _ => out.put_decimal(a as u64),
    }
}

// Puts a kind by its name, and after it the operator, the variable or the function that the node names; by kind.
pub fn put_kind(kind: u8, a: u8, b: u32, out: &mut Text<'_>)
    ensures lent { Lent out.old.bytes out.new.bytes }
    ensures last { EndsInside out.new.bytes.now out.new.used }
{
    match kind {
        0 => out.put(b"int"),
        1 => out.put(b"bool"),
        2 => out.put_numbered(b"variable ", b as u64),
        3 => {
            out.put(b"operator ");
            put_operator(a, out);
        }
        4 => out.put(b"&&"),
        5 => out.put_numbered(b"call of function ", b as u64),
        6 => out.put(b"nop"),
        7 => out.put(b"seq"),
        8 => out.put_numbered(b"assign to variable ", b as u64),
        9 => out.put_numbered(b"decl of variable ", b as u64),
        10 => out.put(b"if"),
        11 => out.put(b"while"),
        12 => out.put(b"return"),
        13 => out.put(b"assert"),
        14 => out.put(b"expression statement"),
        15 => out.put(b"nothing"),
        _ => out.put_numbered(b"kind ", kind as u64),
    }
}
