// Many examples, each with what the rules say of it, written from the rules; and callers that are proved against an interface
// alone, which the examples run with each implementation; and a type of elements with an order of its own.

#![tactic(auto)]

#[cfg(test)]
mod agreement_tests;
mod callers;
#[cfg(test)]
mod input_tests;
#[cfg(test)]
mod key_tests;
mod keys;
#[cfg(test)]
mod line_tests;
#[cfg(test)]
mod readings_tests;
#[cfg(test)]
mod requests;
#[cfg(test)]
mod stack_tests;

pub use callers::{ask_all, ask_twice, there_and_back};
pub use keys::{Key, newest_off};
