// Why an agreement refuses a call.
ghost use Rattle.std.specs.Prelude.{◌≡◌};
ghost use Rattle.agreement.specs.Refusals.{number_of};

use thiserror::Error;

#[derive(Clone, Copy, PartialEq, Eq, Debug, Error)]
pub enum AgreementRefusal {
    #[error("the number of boards is not 1 to 7")]
    Size = 1,
    #[error("there is no such epoch, or no such board")]
    Unknown = 4,
    #[error("the board has proposed in the epoch already")]
    Already = 8,
    #[error("fewer than a majority have proposed in the epoch")]
    TooFew = 11,
}

// The number under which the refusal is reported.
impl From<AgreementRefusal> for u8 {
    ghost from_gives = { λ refusal number. number ≡ number_of refusal };

    fn from(refusal: AgreementRefusal) -> u8 {
        refusal as u8
    }
}
