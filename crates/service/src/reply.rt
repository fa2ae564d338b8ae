// What a service answers: a reply for the client, and a note by which the doing can be undone.
ghost use Rattle.std.specs.Prelude.{◌≡◌};
ghost use Rattle.service.specs.Codes.{code_number, code_of};

use std::error::Error;
use std::fmt;

// How a doing ended.
#[derive(Clone, Copy, PartialEq, Eq, Debug)]
pub enum Code {
    Done = 0,
    Already = 1,
    Full = 2,
    Absent = 3,
    // Not an operation of this service, or a channel out of range.
    Foreign = 4,
}

// Why an operation is not done.
#[derive(Clone, Copy, PartialEq, Eq, Debug)]
pub enum NotDone {
    Already,
    Full,
    Absent,
    Foreign,
}

// The code of an operation that is not done.
impl From<NotDone> for Code {
    ghost from_gives = { λ why code. code ≡ code_of why };

    fn from(why: NotDone) -> Code {
        match why {
            NotDone::Already => Code::Already,
            NotDone::Full => Code::Full,
            NotDone::Absent => Code::Absent,
            NotDone::Foreign => Code::Foreign,
        }
    }
}

// The number by which the code is known.
impl From<Code> for u8 {
    ghost from_gives = { λ code number. number ≡ code_number code };

    fn from(code: Code) -> u8 {
        code as u8
    }
}

// A code with its number: what the operation gives where it is done, and else 0. Stays flat, by a rule of the project: replies
// lie in lent records, and a client adopts a code and a number.
#[derive(Clone, Copy, PartialEq, Eq, Debug)]
pub struct Reply {
    pub code: Code,
    pub number: i32,
}

// How to undo a doing. Kind 0 undoes nothing; what the other kinds and the fields mean is each service's own. Fields that a
// kind does not use are 0. Stays flat, by a rule of the project: notes lie in records, and any byte may stand there as a kind.
#[derive(Clone, Copy, PartialEq, Eq, Debug, Default)]
pub struct Note {
    pub kind: u8,
    pub place: u8,
    pub value: i32,
    pub channel: u8,
}

// The code in words.
impl fmt::Display for Code {
    fn fmt<W: fmt::Write>(&self, f: &mut fmt::Formatter<W>) -> fmt::Result {
        match self {
            Code::Done => write!(f, "ok"),
            Code::Already => write!(f, "already there"),
            Code::Full => write!(f, "full"),
            Code::Absent => write!(f, "absent"),
            Code::Foreign => write!(f, "not for this service"),
        }
    }
}

// Why an operation is not done, in the words of its code.
impl fmt::Display for NotDone {
    fn fmt<W: fmt::Write>(&self, f: &mut fmt::Formatter<W>) -> fmt::Result {
        let code = Code::from(*self);
        write!(f, "{code}")
    }
}

impl Error for NotDone {}

// The code and the number.
impl fmt::Display for Reply {
    fn fmt<W: fmt::Write>(&self, f: &mut fmt::Formatter<W>) -> fmt::Result {
        let code = self.code;
        let number = self.number;
        write!(f, "{code}, {number}")
    }
}
