// What stands in the fields of a line behind its word.
ghost use Rattle.std.specs.Prelude.{◌≡◌};
ghost use Rattle.lines.specs.Words.{kinds};

use service::Operation;

// What a field holds.
#[derive(Clone, Copy, PartialEq, Eq, Debug)]
pub(crate) enum Kind {
    Channel,
    Value,
}

// The kinds of the fields behind an operation's word, in their order. A `match`, as each operation has its own.
pub(crate) fn kinds(operation: Operation) -> &'static [Kind]
    ensures { result.now ≡ kinds operation }
{
    match operation {
        Operation::Put | Operation::Drop => &[Kind::Channel, Kind::Value],
        Operation::Count => &[Kind::Value, Kind::Value],
        Operation::Push => &[Kind::Value],
        Operation::Pop => &[],
    }
}
