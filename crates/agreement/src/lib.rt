// How boards decide whose proposals count. `Agreement` is what every kind of agreement does: boards propose, epoch by epoch, and
// in each epoch a set of those that have proposed is decided, a majority of all. A `Polling` decides all that have proposed
// by the time that its `Timing` says: `First` as soon as a majority have proposed, and `Late` when it is first asked. A
// `BoardSet` says which boards. Where an agreement stands and what each call may do is defined in specs/Standings.antt and
// Agreements.antt, over specs/Majorities.antt and Refusals.antt, and told in docs/agreement.md.

#![tactic(auto)]

mod ballot;
mod board_count;
mod board_set;
mod interface;
mod kinds;
mod majority;
mod poll;
mod poll_steps;
mod polling;
mod refusal;

pub use board_set::BoardSet;
pub use interface::{Agreement, decision_laws};
pub use kinds::{AtOnce, First, Late, Polling, Timing, WhenAsked};
pub use majority::majority_laws;
pub use refusal::AgreementRefusal;
