// The stack, and a stack as it lies in a bank.
use lists::{Plain, Seq};

// At most 16 values, the newest last.
#[derive(Clone, Copy)]
pub struct Stack {
    pub(crate) values: Seq<i32, 16>,
}

// Values of which nothing is known.
pub type StackRecord = Plain<i32, 16>;
