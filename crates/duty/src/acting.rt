// The acting calls: the new marking is put back where the old one came.
ghost use Rattle.std.specs.Prelude.{◌≡◌, length};
ghost use Rattle.rules.specs.Image.{marking_image};
ghost use Rattle.duty.specs.Performing.{Fills, written_number, written};

use super::telling;
use rules::{Marking, Refusal};

// A refusal leaves every byte.
pub fn put_back(answer: &Result<Marking, Refusal>, marking: &mut [u8]) -> u8
    ensures number { result ≡ written_number answer.now (length marking.old) }
    ensures bytes { marking.new ≡ written answer.now marking.old }
{
    match answer {
        Ok(after) => telling::number(&image::write_marking(after, marking)),
        Err(refusal) => u8::from(*refusal),
    }
}

// A marking that fills the buffer is written whole; its image is never refused.
pub fn put(after: &Marking, marking: &mut [u8])
    requires { Fills after.now marking.old }
    ensures { marking.new ≡ marking_image after.now }
{
    let _ = image::write_marking(after, marking);
}
