// How many boards there are.
ghost use Rattle.std.specs.Prelude.{◌≡◌, ◌≤◌, MatchResult, Some, None};
ghost use Rattle.agreement.specs.Refusals.{clear_refusal};

use crate::board_set::BOARDS;
use crate::refusal::AgreementRefusal;

// A number of boards that there can be.
#[derive(Clone, Copy)]
pub(crate) struct BoardCount {
    pub(crate) n: usize,
    ghost some: { 1 ≤ n },
    ghost few: { n ≤ 7 },
}

impl TryFrom<usize> for BoardCount {
    type Error = AgreementRefusal;

    ghost try_from_gives = { λ n made. MatchResult made
        (λ count. (clear_refusal n ≡ None) × (count.n ≡ n))
        (λ e. clear_refusal n ≡ Some e) };

    fn try_from(n: usize) -> Result<BoardCount, AgreementRefusal> {
        if n == 0 || n > BOARDS {
            return Err(AgreementRefusal::Size);
        }
        Ok(BoardCount { n })
    }
}
