// A whole line, read.
ghost use Rattle.std.specs.Prelude.{◌≡◌};
ghost use Rattle.lines.specs.Asking.{ReadExactly};
ghost use Rattle.lines.specs.Fields.{shown};
ghost use Rattle.lines.specs.Reading.{operation_in, number_of, number_at, asked, read_of};
ghost use Rattle.lines.specs.Words.{operation_of_word};

use crate::fault::LineFault;
use crate::fields::{field, semicolons};
use crate::kind::{Kind, kinds};
use crate::part::Field;
use service::{Operation, Request};

// The operation that a word asks for. No `TryFrom`, since both types are of other crates.
fn operation_named(word: &[u8]) -> Option<Operation>
    ensures { result ≡ operation_of_word word.now }
{
    match word {
        b"put" => Some(Operation::Put),
        b"drop" => Some(Operation::Drop),
        b"count" => Some(Operation::Count),
        b"push" => Some(Operation::Push),
        b"pop" => Some(Operation::Pop),
        _ => None,
    }
}

// The operation of a line that has as many fields as the operation takes.
fn operation_of(line: &[u8]) -> Result<Operation, LineFault>
    ensures { result ≡ operation_in line.now }
{
    let operation = field(line, 0)
        .and_then(|word| operation_named(word.bytes))
        .ok_or(LineFault::Word)?;
    let wanted = kinds(operation).len();
    let behind = semicolons(line);
    if behind < wanted {
        return Err(LineFault::Missing { field: behind + 1 });
    }
    if behind > wanted {
        return Err(LineFault::Surplus { field: wanted + 1 });
    }
    Ok(operation)
}

// The number that a field of this kind writes.
fn number_of(field: Field<'_>, kind: Kind) -> Result<i32, LineFault>
    ensures { result ≡ number_of kind (shown field.entry) }
{
    match kind {
        Kind::Channel => Ok(i32::from(field.channel()?)),
        Kind::Value => Ok(field.value()?),
    }
}

// The number in the line's field with this number, which is of this kind.
fn number_at(line: &[u8], number: usize, kind: Kind) -> Result<i32, LineFault>
    ensures { result ≡ number_at kind line.now number }
{
    let found = field(line, number).ok_or(LineFault::Missing { field: number })?;
    number_of(found, kind)
}

// The request of a line whose operation is known: its numbers, in the order of the fields.
fn request_of(line: &[u8], operation: Operation) -> Result<Request, LineFault>
    ensures { result ≡ asked line.now operation }
{
    let (first, second) = match *kinds(operation) {
        [] => (0, 0),
        [kind] => (number_at(line, 1, kind)?, 0),
        [kind, next, ..] => (number_at(line, 1, kind)?, number_at(line, 2, next)?),
    };
    Ok(Request {
        operation,
        first,
        second,
    })
}

// The request that a line asks for, or the first fault: of the word, then of the number of fields, then of the
// fields from the left.
pub fn read(line: &[u8]) -> Result<Request, LineFault>
    ensures is { result ≡ read_of line.now }
    ensures exactly { ReadExactly line.now result }
{
    let operation = operation_of(line)?;
    request_of(line, operation)
}
