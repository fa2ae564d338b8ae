// Serial lines, read exactly: a line of text into the request that it asks for, or into the fault that says what is
// wrong with it and where. `read` takes a whole line, `field` hands out one field of it, and a `Field` reads its
// channel or its value. What a line means is defined in specs/Asking.antt, over specs/Forms.antt.

#![tactic(auto)]

mod fault;
mod fields;
mod kind;
mod marks;
mod numbers;
mod part;
mod reader;
mod report;

pub use fault::{LineFault, NumberFault, Report};
pub use fields::field;
pub use marks::cut;
pub use part::Field;
pub use reader::read;
