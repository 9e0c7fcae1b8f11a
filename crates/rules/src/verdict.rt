// What the static check finds, and why a call that makes it is refused.
ghost use Rattle.std.specs.Prelude.{◌≡◌};
ghost use Rattle.rules.specs.declared.verdict.CheckError.TheVariants.{Refused, Rejected};
ghost use Rattle.rules.specs.Results.{reason_number};

use crate::refusal::Refusal;

// The check's reasons, in their order.
#[derive(Clone, Copy, Debug, PartialEq, Eq)]
pub enum Reason {
    Unreportable,
    Uncausable,
    Waiting,
    Cyclic,
    Reopening,
    Reviving,
}

// The number that a caller is told.
impl From<Reason> for u8 {
    ghost from_gives = { λ reason number. number ≡ reason_number reason };

    fn from(reason: Reason) -> u8 {
        match reason {
            Reason::Unreportable => 1,
            Reason::Uncausable => 2,
            Reason::Waiting => 3,
            Reason::Cyclic => 4,
            Reason::Reopening => 5,
            Reason::Reviving => 6,
        }
    }
}

// The place is an event for the reasons 1, 2 and 4, else a relation.
#[derive(Clone, Copy, Debug, PartialEq, Eq)]
pub struct Rejection {
    pub reason: Reason,
    pub place: usize,
}

// Why a call that makes the check is refused: before it, or by it.
#[derive(Clone, Copy, Debug, PartialEq, Eq)]
pub enum CheckError {
    Refused(Refusal),
    Rejected(Rejection),
}

impl From<Refusal> for CheckError {
    ghost from_gives = { λ refusal error. error ≡ Refused refusal };

    fn from(refusal: Refusal) -> CheckError {
        CheckError::Refused(refusal)
    }
}

impl From<Rejection> for CheckError {
    ghost from_gives = { λ rejection error. error ≡ Rejected rejection };

    fn from(rejection: Rejection) -> CheckError {
        CheckError::Rejected(rejection)
    }
}
