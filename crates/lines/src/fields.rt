// The fields of a line: its parts between semicolons.
ghost use Rattle.std.specs.Prelude.{◌≡◌, ◌+◌, length, take, drop, IfSome};
ghost use Rattle.std.specs.Option.{option_map};
ghost use Rattle.lines.specs.Fields.{Parted, fields, field_of, shown};

use crate::marks::cut;
use crate::part::Field;

// The field with this number, counted from 0, or none where the line has fewer. A `for` over the fields before it, since each
// moves the offset.
pub fn field(line: &[u8], number: usize) -> Option<Field<'_>>
    ensures parted { Parted line.now (fields line.now) }
    ensures finds { option_map shown result ≡ field_of line.now number }
    ensures part { IfSome result (λ f. f.bytes.now ≡ take (length f.bytes.now) (drop f.start line.now)) }
{
    let mut start = 0;
    let mut rest = line;
    for _ in 0..number {
        let (part, after) = cut(rest, b';');
        rest = after?;
        start += part.len() + 1;
    }
    let (bytes, _) = cut(rest, b';');
    Some(Field {
        number,
        start,
        bytes,
    })
}

// How many semicolons a line has: one fewer than it has fields.
pub(crate) fn semicolons(line: &[u8]) -> usize
    ensures { result + 1 ≡ length (fields line.now) }
{
    line.iter().filter(|byte| **byte == b';').count()
}
