// A row of the readings table.
ghost use Rattle.std.specs.Prelude.{◌≡◌};
ghost use Rattle.tables.specs.Rows.{same_row, before_row, row_of};
ghost use Rattle.std.proofs.Common.{rules};

use lists::Order;
use std::fmt;

// A reading in thousandths, and the channel that it came from.
#[derive(Clone, Copy, PartialEq, Eq, PartialOrd, Ord, Debug, Default)]
pub struct Row {
    pub value: i32,
    pub channel: u8,
}

// Rows are compared as derived: by value, and by channel where the values are equal.
impl Order for Row {
    ghost same = { same_row };

    ghost before = { before_row };

    ghost tells = { Prim.search rules };

    ghost ordered = { Prim.search rules };

    fn is_same(&self, other: &Row) -> bool {
        self == other
    }

    fn is_before(&self, other: &Row) -> bool {
        self < other
    }
}

impl Row {
    // The row that a channel number and a value name, if there is such a channel. No `TryFrom`, since two numbers name it.
    pub fn named(channel: i32, value: i32) -> Option<Row>
        ensures { result ≡ row_of channel value }
    {
        let channel = u8::try_from(channel).ok()?;
        Some(Row { value, channel })
    }
}

// The row in words.
impl fmt::Display for Row {
    fn fmt<W: fmt::Write>(&self, f: &mut fmt::Formatter<W>) -> fmt::Result {
        let value = self.value;
        let channel = self.channel;
        write!(f, "{value} thousandths on channel {channel}")
    }
}
