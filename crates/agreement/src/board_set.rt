// Sets of boards.
ghost use Rattle.std.specs.Prelude.{◌≡◌, if◌then◌else◌, count_by, nat_lt, take};
ghost use Rattle.agreement.specs.Sets.{nobody, joined, either, count, boards_below};
ghost use Rattle.agreement.specs.BoardSets.{boards_of};

use std::array;

// How many boards there are at most.
pub(crate) const BOARDS: usize = 7;

// Which of at most 7 boards: board c is in the set where place c holds true. An array, since an answer must not depend on
// free memory. No model: its value would be a function, which has no code.
#[derive(Clone, Copy, PartialEq, Eq, Debug, Default)]
pub struct BoardSet {
    on: [bool; BOARDS],
}

impl BoardSet {
    // No board.
    pub fn empty() -> BoardSet
        ensures { boards_of result ≡ nobody }
    {
        BoardSet::default()
    }

    // The set with one board more; 7 and above are no boards, and change nothing.
    pub fn with(self, board: usize) -> BoardSet
        ensures { boards_of result
            ≡ (if nat_lt board 7 then joined board (boards_of self) else boards_of self) }
    {
        let mut on = self.on;
        if board < BOARDS {
            on[board] = true;
        }
        BoardSet { on }
    }

    pub fn contains(self, board: usize) -> bool
        ensures { result ≡ boards_of self board }
    {
        self.on.get(board) == Some(&true)
    }

    // The boards of either set.
    pub fn union(self, other: BoardSet) -> BoardSet
        ensures { boards_of result ≡ either (boards_of self) (boards_of other) }
    {
        BoardSet {
            on: array::from_fn(|board| self.contains(board) || other.contains(board)),
        }
    }

    // All boards below `n`.
    pub fn below(n: usize) -> BoardSet
        ensures { boards_of result ≡ boards_below n }
    {
        BoardSet {
            on: array::from_fn(|board| board < n),
        }
    }

    // How many boards below `n` are in the set.
    pub fn count_below(self, n: usize) -> usize
        ensures { result ≡ count n (boards_of self) }
    {
        self.places_below(n)
    }

    // How many of the first `n` places hold true.
    fn places_below(self, n: usize) -> usize
        ensures { result ≡ count_by (λ on. on) (take n self.on) }
    {
        self.on.iter().take(n).map(|on| usize::from(*on)).sum()
    }
}
