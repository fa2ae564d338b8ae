// The refusal of a sequence that has no place left.
use std::error::Error;
use std::fmt;

// There is no place for what was to go in.
#[derive(Clone, Copy, PartialEq, Eq, Debug)]
pub struct Full;

impl fmt::Display for Full {
    ghost use Rattle.std.specs.Prelude.{Some, codes};

    ghost output = { λ _. Some (codes "there is no place for it") };

    fn fmt<W: fmt::Write>(&self, f: &mut fmt::Formatter<W>) -> fmt::Result {
        f.write_str("there is no place for it")
    }
}

impl Error for Full {}
