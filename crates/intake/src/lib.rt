// An input of serial lines, taken line by line: `lines_of` hands out its lines, and `take_all` has each request that a line
// asks for answered, or says what is wrong with the line, and counts both. Programs differ in their `Desk`, which answers.

#![tactic(auto)]

mod desk;
mod input;
mod tally;

pub use desk::Desk;
pub use input::{InputError, Lines, MOST, lines_of, read_input};
pub use tally::{Tally, take_all};
