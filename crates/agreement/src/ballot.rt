// What is known of one epoch.
ghost use Rattle.std.specs.Prelude.{◌≡◌, if◌then◌else◌, nat_lt, None, option_map};
ghost use Rattle.agreement.specs.BoardSets.{boards_of};
ghost use Rattle.agreement.specs.Deciding.{settled};
ghost use Rattle.agreement.specs.Sets.{nobody, joined};

use crate::board_set::BoardSet;

// The boards that have proposed in an epoch, and its decided set. That the set lies within them is a part of `Sound`, which the
// poll keeps whole, and so no ghost field here.
#[derive(Clone, Copy, Default)]
pub(crate) struct Ballot {
    pub(crate) proposers: BoardSet,
    pub(crate) decided: Option<BoardSet>,
}

impl Ballot {
    // Nobody has proposed, and nothing is decided.
    pub(crate) fn empty() -> Ballot
        ensures proposers { boards_of result.proposers ≡ nobody }
        ensures decided { result.decided ≡ None }
    {
        Ballot::default()
    }

    // The ballot with one proposer more.
    pub(crate) fn with(self, board: usize) -> Ballot
        ensures proposers { let proposers = boards_of self.proposers in
            boards_of result.proposers ≡ (if nat_lt board 7 then joined board proposers else proposers) }
        ensures decided { result.decided ≡ self.decided }
    {
        Ballot {
            proposers: self.proposers.with(board),
            ..self
        }
    }

    // The ballot in which all that have proposed are decided, if they are a majority of `n` and nothing is decided yet.
    pub(crate) fn settle(self, n: usize) -> Ballot
        ensures proposers { result.proposers ≡ self.proposers }
        ensures decided { option_map boards_of result.decided
            ≡ settled n (boards_of self.proposers) (option_map boards_of self.decided) }
    {
        let decided = self
            .decided
            .or_else(|| self.proposers.is_majority(n).then_some(self.proposers));
        Ballot { decided, ..self }
    }
}
