// What every agreement does.
ghost use Rattle.agreement.specs.Agreements.{Sound, Clears, Proposes, Learns, DecisionLaws};
ghost use Rattle.agreement.specs.Standings.{Standing};

use crate::board_set::BoardSet;
use crate::refusal::AgreementRefusal;

// Boards propose, epoch by epoch, and in each epoch a set of those that have proposed is decided. Which set, and when, is
// left to each kind of agreement; all else is said here.
pub trait Agreement: Sized {
    // How many boards there are, who has proposed, and what is decided.
    ghost standing: { Self → Standing };

    // Starts anew with `n` boards.
    fn clear(&mut self, n: usize) -> Result<(), AgreementRefusal>
        ensures does { Clears standing self.old self.new n result };

    // The board proposes in the epoch.
    fn propose(&mut self, epoch: usize, board: usize) -> Result<(), AgreementRefusal>
        ensures does { Proposes standing self.old self.new epoch board result };

    // The decided set of the epoch.
    fn learn(&mut self, epoch: usize) -> Result<BoardSet, AgreementRefusal>
        ensures does { Learns standing self.old self.new epoch result };

    ghost sound: { (x : Self) → Sound (standing x) };
}

// Nothing is decided past epoch 15, and any two decided sets share a board.
pub fn decision_laws<A: Agreement>()
    ensures { DecisionLaws A.Agreement.standing }
{}
