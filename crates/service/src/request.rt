// A request, as every service takes it.
use std::fmt;

#[derive(Clone, Copy, PartialEq, Eq, Debug)]
pub enum Operation {
    Put,
    Drop,
    Count,
    Push,
    Pop,
}

// An operation with its numbers in the order of its fields; one that it does not use is 0. Stays flat, by a rule of the
// project: every operation with every two numbers is a request, and each is answered.
#[derive(Clone, Copy, PartialEq, Eq, Debug)]
pub struct Request {
    pub operation: Operation,
    pub first: i32,
    pub second: i32,
}

// The request in words, which each operation has of its own. Values are thousandths.
impl fmt::Display for Request {
    fn fmt<W: fmt::Write>(&self, f: &mut fmt::Formatter<W>) -> fmt::Result {
        let first = self.first;
        let second = self.second;
        match self.operation {
            Operation::Put => write!(f, "put {second} thousandths on channel {first}"),
            Operation::Drop => write!(f, "drop {second} thousandths from channel {first}"),
            Operation::Count => write!(
                f,
                "count the readings from {first} to {second} thousandths"
            ),
            Operation::Push => write!(f, "push {first} thousandths"),
            Operation::Pop => write!(f, "pop"),
        }
    }
}
