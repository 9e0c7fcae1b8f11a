// The classes of a table's events, a byte each in an image: controllable 1 bit, causable 1 bit, 6 spare bits.
ghost use Rattle.std.specs.Prelude.{◌≡◌, cond, ◌^◌, ◌≤◌, ◌<◌, length, IfOk};
ghost use Rattle.rules.specs.Holds.{most_events};
ghost use Rattle.rules.specs.Results.{number_of};
ghost use Rattle.image.specs.Packed.{class_word};
ghost use Rattle.image.specs.Classes.{classes_number, classes_of};

use rules::Refusal;

// The events of each class as a set.
#[derive(Clone, Copy)]
pub struct Classes {
    pub controllable: u64,
    pub causable: u64,
}

impl Classes {
    // The byte of an event's classes.
    pub fn byte(self, e: usize) -> u8
        requires { e < most_events }
        ensures { result ≡ class_word self.controllable self.causable e }
    {
        (((self.controllable >> e) % 2 * 2 + (self.causable >> e) % 2) * 64) as u8
    }
}

// The set of event e alone, or the empty set.
fn event_if(there: bool, e: usize) -> u64
    requires { e < 64 }
    ensures { result ≡ cond there (2 ^ e) 0 }
{
    (there as u64) << e
}

// The classes of as many events as there are bytes.
pub fn classes_from(bytes: &[u8]) -> Result<Classes, Refusal>
    requires { length bytes.now ≤ most_events }
    ensures number { number_of result ≡ classes_number bytes.now }
    ensures sets { IfOk result (λ classes. classes ≡ classes_of bytes.now) }
{
    let mut controllable = 0;
    let mut causable = 0;
    for (e, byte) in bytes.iter().enumerate() {
        if *byte % 64 != 0 {
            return Err(Refusal::SpareBit);
        }
        controllable += event_if(*byte >> 7 == 1, e);
        causable += event_if((*byte >> 6) % 2 == 1, e);
    }
    Ok(Classes {
        controllable,
        causable,
    })
}
