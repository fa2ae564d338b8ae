// Callers that know an agreement, or a service, only by its interface.
ghost use Rattle.std.specs.Prelude.{◌≡◌, Some, Ok, Err};
ghost use Rattle.agreement.specs.BoardSets.{boards_of};
ghost use Rattle.agreement.specs.Refusals.{learn_refusal};
ghost use Rattle.trials.specs.Callers.{Asked};
ghost use Rattle.trials.specs.Undoing.{Back};

use agreement::{Agreement, AgreementRefusal, BoardSet};
use service::{Doing, Request, Service};

// Starts anew with `n` boards, has each of them propose in the epoch, and learns what is decided.
pub fn ask_all<A: Agreement>(
    asked: &mut A,
    n: usize,
    epoch: usize,
) -> Result<BoardSet, AgreementRefusal>
    ensures { Asked n epoch ((A.Agreement.standing asked.new).decided epoch) result }
{
    asked.clear(n)?;
    for board in 0..n {
        asked.propose(epoch, board)?;
    }
    asked.learn(epoch)
}

// Learns what is decided in an epoch before and after a board has tried to propose, there or elsewhere: it is the same set,
// and a second learn is never refused.
pub fn ask_twice<A: Agreement>(
    asked: &mut A,
    epoch: usize,
    later: usize,
    board: usize,
) -> Result<(BoardSet, BoardSet), AgreementRefusal>
    ensures { elim result [ Ok p ↦ boards_of p.0 ≡ boards_of p.1 | Err e ↦ learn_refusal (A.Agreement.standing asked.old) epoch ≡ Some e ] }
{
    let before = asked.learn(epoch)?;
    let _ = asked.propose(later, board);
    let after = asked.learn(epoch)?;
    Ok((before, after))
}

// Does what a request asks, and undoes it: the note always fits, and the state is as before.
pub fn there_and_back<S: Service>(service: S, request: Request) -> Option<S>
    ensures { Back S.Service.state (S.Service.state service) result }
{
    let Doing {
        after,
        reply: _,
        note,
    } = service.perform(request);
    after.undo(note)
}
