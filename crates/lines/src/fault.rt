// What can be wrong with a line, from the inside out: a number in a field, then the line.
ghost use Rattle.std.specs.Prelude.{◌≡◌};
ghost use Rattle.lines.specs.declared.fault.LineFault.TheVariants.{Number};

// A number that is not read, and the field in which it stands.
#[derive(Clone, Copy, PartialEq, Eq, Debug)]
pub enum NumberFault {
    // The first byte that breaks the form, or the field's length where it ends too early.
    Form { field: usize, offset: usize },
    // A channel of good form over its limit.
    Limit { field: usize },
}

// A line that is not read.
#[derive(Clone, Copy, PartialEq, Eq, Debug)]
pub enum LineFault {
    // The first field is no operation's word.
    Word,
    // The first field that the operation needs and the line lacks.
    Missing { field: usize },
    // The first field beyond those that the operation has.
    Surplus { field: usize },
    Number(NumberFault),
}

impl From<NumberFault> for LineFault {
    ghost from_gives = { λ e r. r ≡ Number e };

    fn from(fault: NumberFault) -> LineFault {
        LineFault::Number(fault)
    }
}

// A fault as it is reported: its cause, the field, and the offset in that field. The cause stays a number, 1 to 4, by a rule
// of the project: so it is known to those who read reports.
#[derive(Clone, Copy, PartialEq, Eq, Debug)]
pub struct Report {
    pub cause: u8,
    pub field: usize,
    pub offset: usize,
}
