// What a majority is.
ghost use Rattle.std.specs.Prelude.{◌≡◌};
ghost use Rattle.agreement.specs.BoardSets.{boards_of};
ghost use Rattle.agreement.specs.Majorities.{speaks, MajorityLaws};

use crate::board_set::BoardSet;

impl BoardSet {
    // Whether the set holds a majority of the boards below `n`.
    pub fn is_majority(self, n: usize) -> bool
        ensures { result ≡ speaks n (boards_of self) }
    {
        n / 2 + 1 <= self.count_below(n)
    }
}

// Two majorities of one number of boards share a board; a set that holds a majority is one; and all boards together are.
pub fn majority_laws()
    ensures { MajorityLaws }
{}
