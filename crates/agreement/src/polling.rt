// The agreements that decide all boards that have proposed by some time.
ghost use Rattle.std.specs.Prelude.{◌≡◌, if◌then◌else◌, MatchBool, OnOk};
ghost use Rattle.agreement.specs.Agreements.{Cleared, Proposes, Learns};
ghost use Rattle.agreement.specs.Deciding.{settling};
ghost use Rattle.agreement.specs.PollStandings.{standing_of};
ghost use Rattle.agreement.specs.Standings.{proposing};

use crate::board_count::BoardCount;
use crate::board_set::BoardSet;
use crate::interface::Agreement;
use crate::kinds::{Polling, Timing};
use crate::poll::Poll;
use crate::refusal::AgreementRefusal;
use std::marker::PhantomData;

impl<T: Timing> Polling<T> {
    // As cleared for one board.
    pub fn new() -> Polling<T>
        ensures { Cleared (standing_of result.poll) 1 }
    {
        Polling {
            poll: Poll::empty(BoardCount { n: 1 }),
            timing: PhantomData,
        }
    }
}

impl<T: Timing> Agreement for Polling<T> {
    ghost standing = { λ it. standing_of it.poll };

    ghost sound = { λ it. it.poll.sound };

    fn clear(&mut self, n: usize) -> Result<(), AgreementRefusal> {
        self.poll = Poll::empty(BoardCount::try_from(n)?);
        Ok(())
    }

    // Decides all that have proposed, if this proposal completes a majority and `T` is at once; else nothing.
    fn propose(&mut self, epoch: usize, board: usize) -> Result<(), AgreementRefusal>
        ensures does { Proposes (λ it. standing_of it.poll) self.old self.new epoch board result }
        ensures rule { let proposed = proposing (standing_of self.old.poll) epoch board in
            OnOk result (standing_of self.new.poll ≡ (if T.AT_ONCE then settling proposed epoch else proposed)) }
    {
        let poll = self.poll.propose(epoch, board)?;
        self.poll = if T::AT_ONCE { poll.settle(epoch) } else { poll };
        Ok(())
    }

    // Decides nothing, if `T` is at once; else all that have proposed, unless a set is decided already.
    fn learn(&mut self, epoch: usize) -> Result<BoardSet, AgreementRefusal>
        ensures does { Learns (λ it. standing_of it.poll) self.old self.new epoch result }
        ensures rule { MatchBool T.AT_ONCE
            (self.new ≡ self.old)
            (OnOk result (standing_of self.new.poll ≡ settling (standing_of self.old.poll) epoch)) }
    {
        if T::AT_ONCE {
            return self.poll.answer(epoch);
        }
        let poll = self.poll.settle(epoch);
        let answer = poll.answer(epoch)?;
        self.poll = poll;
        Ok(answer)
    }
}
