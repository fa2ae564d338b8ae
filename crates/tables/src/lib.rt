// The services of a rack: the readings table and the stack.
//
// `Readings` keeps rows, a value with its channel, and `Stack` keeps values. Each is told by value what to do, and lies in a
// bank as a plain record, which may say anything. Their rules, on the list of rows or values, are in specs/Readings.antt and
// specs/Stacks.antt, and docs/services.md tells them.

#![tactic(auto)]

mod notes;
mod readings;
mod readings_rows;
mod readings_service;
mod row;
mod stack;
mod stack_service;

pub use readings::{Readings, ReadingsRecord};
pub use row::Row;
pub use stack::{Stack, StackRecord};
