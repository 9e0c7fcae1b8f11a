// The header of a table's image, 4 bytes: 7 bits of events, 9 of relations, firm 1, 15 spare bits.
ghost use Rattle.std.specs.Prelude.{◌≡◌, ◌≤◌, IfOk};
ghost use Rattle.rules.specs.Holds.{most_events, most_relations};
ghost use Rattle.rules.specs.Image.{table_length};
ghost use Rattle.rules.specs.Results.{number_of};
ghost use Rattle.image.specs.Packed.{header_word};
ghost use Rattle.image.specs.Header.{header_number, SaysHeader};

use crate::{bits, judge};
use rules::Refusal;

// How many events and relations a table has, and whether it is firm.
#[derive(Clone, Copy)]
pub struct Header {
    pub events: usize,
    pub count: usize,
    pub firm: bool,
    ghost few_events: { events ≤ most_events },
    ghost few_relations: { count ≤ most_relations },
}

impl Header {
    // What an image says that is as long as that.
    pub fn of(image: &[u8]) -> Result<Header, Refusal>
        ensures number { number_of result ≡ header_number image.now }
        ensures fields { IfOk result (λ h. SaysHeader image.now h.events h.count h.firm) }
    {
        if image.len() < 4 {
            return Err(Refusal::Length);
        }
        let w = bits::word(&image[..4]);
        if w % 32768 != 0 {
            return Err(Refusal::SpareBit);
        }
        let events = ((w >> 25) % 128) as usize;
        let count = ((w >> 16) % 512) as usize;
        judge::counts(events, count)?;
        let header = Header {
            events,
            count,
            firm: (w >> 15) % 2 == 1,
        };
        if image.len() != header.length() {
            return Err(Refusal::Length);
        }
        Ok(header)
    }

    // How long the image is.
    pub fn length(self) -> usize
        ensures { result ≡ table_length self.events self.count }
    {
        4 + self.events + 6 * self.count
    }

    // The number that the header's bytes hold.
    pub fn word(self) -> u64
        ensures { result ≡ header_word self.events self.count self.firm }
    {
        ((self.events as u64 * 512 + self.count as u64) * 2 + self.firm as u64) * 32768
    }
}
