// How a poll begins, how it changes, and what it answers.
ghost use Rattle.std.specs.Prelude.{◌≡◌, MatchResult, Some, None};
ghost use Rattle.agreement.specs.Agreements.{Cleared};
ghost use Rattle.agreement.specs.BoardSets.{boards_of};
ghost use Rattle.agreement.specs.Deciding.{settling, Prompt};
ghost use Rattle.agreement.specs.PollStandings.{standing_of};
ghost use Rattle.agreement.specs.Polls.{answer_refusal};
ghost use Rattle.agreement.specs.Refusals.{propose_refusal, learn_refusal};
ghost use Rattle.agreement.specs.Standings.{proposing};

use crate::ballot::Ballot;
use crate::board_count::BoardCount;
use crate::board_set::BoardSet;
use crate::poll::{EPOCHS, Poll};
use crate::refusal::AgreementRefusal;

impl Poll {
    // Nobody has proposed, and nothing is decided.
    pub(crate) fn empty(count: BoardCount) -> Poll
        ensures cleared { Cleared (standing_of result) count.n }
        ensures prompt { Prompt (standing_of result) }
    {
        Poll {
            count,
            ballots: [Ballot::empty(); EPOCHS],
        }
    }

    // The poll in which the board has proposed in the epoch, too.
    pub(crate) fn propose(self, epoch: usize, board: usize) -> Result<Poll, AgreementRefusal>
        ensures { let refusal = propose_refusal (standing_of self) epoch board in
            MatchResult result
            (λ p. (refusal ≡ None) × (standing_of p ≡ proposing (standing_of self) epoch board))
            (λ e. refusal ≡ Some e) }
    {
        if epoch >= EPOCHS || board >= self.count.n {
            return Err(AgreementRefusal::Unknown);
        }
        let ballot = self.ballots[epoch];
        if ballot.proposers.contains(board) {
            return Err(AgreementRefusal::Already);
        }
        // By index, since `get_mut` leaves unsaid what the array then holds.
        let mut poll = self;
        poll.ballots[epoch] = ballot.with(board);
        Ok(poll)
    }

    // The poll in which all that have proposed in the epoch are decided, if they are a majority and nothing is decided yet.
    pub(crate) fn settle(self, epoch: usize) -> Poll
        ensures settles { standing_of result ≡ settling (standing_of self) epoch }
        ensures answers { answer_refusal (standing_of result) epoch ≡ learn_refusal (standing_of self) epoch }
    {
        if epoch >= EPOCHS {
            return self;
        }
        let mut poll = self;
        poll.ballots[epoch] = self.ballots[epoch].settle(self.count.n);
        poll
    }

    // The decided set of the epoch.
    pub(crate) fn answer(self, epoch: usize) -> Result<BoardSet, AgreementRefusal>
        ensures { let refusal = answer_refusal (standing_of self) epoch in
            MatchResult result
            (λ s. (refusal ≡ None) × ((standing_of self).decided epoch ≡ Some (boards_of s)))
            (λ e. refusal ≡ Some e) }
    {
        let ballot = self.ballots.get(epoch).ok_or(AgreementRefusal::Unknown)?;
        ballot.decided.ok_or(AgreementRefusal::TooFew)
    }
}
