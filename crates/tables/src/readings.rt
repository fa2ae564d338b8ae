// The readings table, and a table as it lies in a bank.
ghost use Rattle.std.specs.Prelude.{◌≡◌, ◌≤◌, true, length};
ghost use Rattle.lists.specs.Membership.{distinct};
ghost use Rattle.lists.specs.Held.{held};
ghost use Rattle.tables.specs.Rows.{same_row};

use crate::row::Row;
use lists::{Plain, Seq};

// At most 32 rows, none of them twice, the newest last. Ghost fields, and no model: a service owes its law of every value, and of
// a value with a model these two facts would not be known.
#[derive(Clone, Copy)]
pub struct Readings {
    pub(crate) rows: Seq<Row, 32>,
    ghost few: { length (held rows) ≤ 32 },
    ghost apart: { distinct same_row (held rows) ≡ true },
}

// Rows of which nothing is known.
pub type ReadingsRecord = Plain<Row, 32>;
