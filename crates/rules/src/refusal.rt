// Why a call is refused.
ghost use Rattle.std.specs.Prelude.{◌≡◌};
ghost use Rattle.rules.specs.Results.{refusal_number};

// One for each number that a refused call can give.
#[derive(Clone, Copy, Debug, PartialEq, Eq)]
pub enum Refusal {
    Length,
    SpareBit,
    Counts,
    Kind,
    Ends,
    Time,
    Record,
    NotThere,
    NotEnabled,
    StillDue,
    Rejected,
    NoRemedy,
    Room,
    Step,
}

// The number that a caller is told.
impl From<Refusal> for u8 {
    ghost from_gives = { λ refusal number. number ≡ refusal_number refusal };

    fn from(refusal: Refusal) -> u8 {
        match refusal {
            Refusal::Length => 1,
            Refusal::SpareBit => 2,
            Refusal::Counts => 3,
            Refusal::Kind => 4,
            Refusal::Ends => 5,
            Refusal::Time => 6,
            Refusal::Record => 7,
            Refusal::NotThere => 8,
            Refusal::NotEnabled => 10,
            Refusal::StillDue => 11,
            Refusal::Rejected => 12,
            Refusal::NoRemedy => 13,
            Refusal::Room => 14,
            Refusal::Step => 15,
        }
    }
}
