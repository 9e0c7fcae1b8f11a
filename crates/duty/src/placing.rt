// Values into the first of the lent places; later places stay.
ghost use Rattle.std.specs.Prelude.{◌≡◌, ◌++◌, ◌≤◌, [], ltb, length, drop};
ghost use Rattle.rules.specs.Numbers.{◌if◌, ◌else◌, done};
ghost use Rattle.rules.specs.Results.{number_of, value_or};

use rules::Refusal;

pub fn put<T: Copy>(values: &[T], places: &mut [T])
    requires { length values.now ≤ length places.old }
    ensures { places.new ≡ values.now ++ drop (length values.now) places.old }
{
    places[..values.len()].copy_from_slice(values);
}

// A call that tells so many numbers, and a place for each.
pub fn tell<const N: usize>(answer: Result<[u32; N], Refusal>, places: &mut [u32]) -> u8
    ensures number { result ≡ (number_of answer.entry else 14 if ltb (length places.old) N) }
    ensures places { places.new ≡ done result (value_or [] answer.entry ++ drop N places.old) places.old }
{
    match answer {
        Ok(numbers) if N <= places.len() => {
            put(&numbers, places);
            0
        }
        Ok(_) => u8::from(Refusal::Room),
        Err(refusal) => u8::from(refusal),
    }
}
