// Faults as numbers, and in words.
ghost use Rattle.std.specs.Prelude.{◌≡◌, Some};
ghost use Rattle.lines.specs.Faults.{number_report, line_report, number_words, line_text};

use crate::fault::{LineFault, NumberFault, Report};
use std::error::Error;
use std::fmt;

impl From<NumberFault> for Report {
    ghost from_gives = { λ e r. r ≡ number_report e };

    fn from(fault: NumberFault) -> Report {
        match fault {
            NumberFault::Form { field, offset } => Report {
                cause: 3,
                field,
                offset,
            },
            NumberFault::Limit { field } => Report {
                cause: 4,
                field,
                offset: 0,
            },
        }
    }
}

impl From<LineFault> for Report {
    ghost from_gives = { λ e r. r ≡ line_report e };

    fn from(fault: LineFault) -> Report {
        match fault {
            LineFault::Word => Report {
                cause: 1,
                field: 0,
                offset: 0,
            },
            LineFault::Missing { field } | LineFault::Surplus { field } => Report {
                cause: 2,
                field,
                offset: 0,
            },
            LineFault::Number(fault) => Report::from(fault),
        }
    }
}

// What is wrong with a number, in words.
impl fmt::Display for NumberFault {
    ghost output = { λ e. Some (number_words e) };

    fn fmt<W: fmt::Write>(&self, f: &mut fmt::Formatter<W>) -> fmt::Result {
        f.write_str(match self {
            NumberFault::Form { .. } => "the number breaks its form here",
            NumberFault::Limit { .. } => "the channel is over 255",
        })
    }
}

// The fault with its numbers, then in words.
impl fmt::Display for LineFault {
    ghost output = { λ e. Some (line_text e) };

    fn fmt<W: fmt::Write>(&self, f: &mut fmt::Formatter<W>) -> fmt::Result {
        let Report {
            cause,
            field,
            offset,
        } = Report::from(*self);
        write!(f, "cause {cause}, field {field}, offset {offset}: ")?;
        match self {
            LineFault::Word => write!(f, "no operation has this word"),
            LineFault::Missing { .. } => write!(f, "this field is missing"),
            LineFault::Surplus { .. } => write!(f, "this field is one too many"),
            LineFault::Number(fault) => write!(f, "{fault}"),
        }
    }
}

impl Error for NumberFault {}

impl Error for LineFault {}
