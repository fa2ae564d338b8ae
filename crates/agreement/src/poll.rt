// The ballots that an agreement is kept in, as they lie in memory.
ghost use Rattle.agreement.specs.Agreements.{Sound};
ghost use Rattle.agreement.specs.Polls.{standing_at};

use crate::ballot::Ballot;
use crate::board_count::BoardCount;

// How many epochs there are.
pub(crate) const EPOCHS: usize = 16;

// How many boards there are, and the ballot of each epoch. An array, since an answer must not depend on free memory.
#[derive(Clone, Copy)]
pub(crate) struct Poll {
    pub(crate) count: BoardCount,
    pub(crate) ballots: [Ballot; EPOCHS],
    ghost sound: { Sound (standing_at count.n ballots) },
}
