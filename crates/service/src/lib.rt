// What a service is asked, what it answers, and what it means to be one. Every layer above speaks in these types.
//
// A `Request` is an operation with its numbers, a `Reply` a code with a number, and a `Note` says how to undo a doing.
// `Service` is the interface of every service that a board can keep. Its meaning, and the law that it shows, are in specs/Model.antt.

#![tactic(auto)]

mod doing;
mod interface;
mod reply;
mod request;

pub use doing::{Doing, Done};
pub use interface::Service;
pub use reply::{Code, NotDone, Note, Reply};
pub use request::{Operation, Request};
