// The check's reason and place, told to C: where the check was made. Any other refusal leaves them.
ghost use Rattle.std.specs.Prelude.{◌≡◌};
ghost use Rattle.duty.specs.Telling.{check_number_of, reason_left, place_left};

use rules::{CheckError, Refusal};

pub fn tell<A>(answer: &Result<A, CheckError>, reason: &mut u8, place: &mut usize) -> u8
    ensures number { result ≡ check_number_of answer.now }
    ensures reason { reason.new ≡ reason_left reason.old answer.now }
    ensures place { place.new ≡ place_left place.old answer.now }
{
    match answer {
        Ok(_) => {
            *reason = 0;
            *place = 0;
            0
        }
        Err(CheckError::Rejected(rejection)) => {
            *reason = u8::from(rejection.reason);
            *place = rejection.place;
            u8::from(Refusal::Rejected)
        }
        Err(CheckError::Refused(refusal)) => u8::from(*refusal),
    }
}
