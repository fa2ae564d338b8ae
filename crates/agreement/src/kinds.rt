// The two kinds of agreement, as they lie in memory.
ghost use Rattle.std.specs.Prelude.{◌≡◌, Bool, true, false, ⊤, IsTrue};
ghost use Rattle.agreement.specs.Deciding.{Prompt};
ghost use Rattle.agreement.specs.PollStandings.{standing_of};

use crate::poll::Poll;
use std::alloc::AllocError;
use std::marker::PhantomData;

// When a set becomes decided. A type, since a struct with a ghost field takes no `bool` as a const parameter; a constant, and no
// closure, since the kinds differ in one step alone.
pub trait Timing {
    ghost AT_ONCE: { Bool };

    // Whether at the proposal that completes a majority, and not only at the first accepted learn.
    const AT_ONCE: bool;
}

// At the proposal that completes a majority.
#[derive(Clone, Copy)]
pub struct AtOnce;

// At the first accepted learn.
#[derive(Clone, Copy)]
pub struct WhenAsked;

impl Timing for AtOnce {
    ghost AT_ONCE = { true };

    const AT_ONCE: bool = true;
}

impl Timing for WhenAsked {
    ghost AT_ONCE = { false };

    const AT_ONCE: bool = false;
}

// An agreement that decides all that have proposed in an epoch by the time that `T` says.
pub struct Polling<T: Timing> {
    pub(crate) poll: Poll,
    pub(crate) timing: PhantomData<T>,
    ghost prompt: { IsTrue T.AT_ONCE → Prompt (standing_of poll) },
}

impl<T: Timing> Copy for Polling<T> {}

// By hand: a derive is refused where a struct has both a parameter and a ghost field.
impl<T: Timing> Clone for Polling<T> {
    ghost is_clone = { λ it copy. copy ≡ it };

    ghost is_infallible = { λ _. ⊤ };

    fn clone(&self) -> Result<Polling<T>, AllocError> {
        Ok(*self)
    }
}

// Decides an epoch at the proposal that completes a majority.
pub type First = Polling<AtOnce>;

// Decides an epoch at its first accepted learn.
pub type Late = Polling<WhenAsked>;
