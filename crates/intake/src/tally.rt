// A whole input, taken line by line.
ghost use Rattle.std.specs.Prelude.{◌≡◌, IfOk};
ghost use Rattle.intake.specs.Inputs.{lines_in};
ghost use Rattle.intake.specs.Tallies.{tally_of, in_turn};

use crate::desk::Desk;
use crate::input::lines_of;
use lines::read;
use std::{fmt, io};

// How many lines were read, and how many were not.
#[derive(Clone, Copy, PartialEq, Eq, Debug, Default)]
pub struct Tally {
    pub read: usize,
    pub faulty: usize,
}

impl fmt::Display for Tally {
    fn fmt<W: fmt::Write>(&self, f: &mut fmt::Formatter<W>) -> fmt::Result {
        let Tally { read, faulty } = self;
        write!(f, "{read} read, {faulty} not read")
    }
}

// Has the request of each line of a text answered, in order, and says the fault of a line that is not read.
pub fn take_all<D: Desk>(rt: &impl Print, text: &[u8], desk: &mut D) -> io::Result<Tally>
    ensures { IfOk result (λ tally. (tally ≡ tally_of text.now) × (D.state desk.new ≡ in_turn D.after (D.state desk.old) (lines_in text.now))) }
{
    let mut tally = Tally::default();
    for (at, line) in lines_of(text).enumerate() {
        let number = at + 1;
        match read(line) {
            Ok(request) => {
                desk.answer(rt, number, request)?;
                tally.read += 1;
            }
            Err(fault) => {
                println!(rt; "{number}: {fault}")?;
                tally.faulty += 1;
            }
        }
    }
    Ok(tally)
}
