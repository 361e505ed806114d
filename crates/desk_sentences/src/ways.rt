// On which way a variable has no value where it is read, as the end of a sentence.
ghost use Rattle.texts.specs.Room.{EndsInside, Lent};

use desk_ways::Way;
use texts::Text;

// Puts the record of the if or the while that is passed without a value.
fn put_passed(out: &mut Text<'_>, word: &[u8], record: usize)
    ensures lent { Lent out.old.bytes out.new.bytes }
{
    out.put(b" is read, and has no value where the ");
    out.put(word);
    out.put_numbered(b" at record ", record as u64);
}

// Puts on which way the variable that the record at a place of a function reads has no value.
pub fn put_way(file: &[u8], place: usize, function: usize, out: &mut Text<'_>)
    ensures lent { Lent out.old.bytes out.new.bytes }
    ensures last { EndsInside out.new.bytes.now out.new.used }
{
    let extent = desk_places::part_extent(file, function);
    let start = extent.start;
    let count = extent.count;
    let a = 12 * start;
    let e = 12 * (start + count);
    let way = desk_ways::way_to(&file[a..e], count, place.saturating_sub(start));
    let record = start + desk_ways::named_node(way);
    match way {
        Way::First { node: _ } => {
            put_passed(out, b"if", record);
            out.put(b" takes its first branch");
        }
        Way::Second { node: _ } => {
            put_passed(out, b"if", record);
            out.put(b" takes its else branch");
        }
        Way::Loop { node: _ } => {
            put_passed(out, b"while", record);
            out.put(b" makes no turn");
        }
        Way::Straight => out.put(b" is read before anything gives it a value"),
        Way::Unknown => out.put(b" is read on a way on which it has no value"),
    }
}
