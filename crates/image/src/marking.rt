// The records of a marking, in and out of an image.
ghost use Rattle.std.specs.Prelude.{◌≡◌, ◌++◌, ◌*◌, ◌≤◌, length, drop, IfOk};
ghost use Rattle.rules.specs.Holds.{most_events};
ghost use Rattle.rules.specs.Judge.{record_number, marking_number};
ghost use Rattle.rules.specs.Image.{record_bytes, record_at, record_image, marking_image};
ghost use Rattle.rules.specs.Carrying.{old_record_bytes, carried};
ghost use Rattle.rules.specs.Results.{number_of};
ghost use Rattle.image.specs.Packed.{record_of_word, word_of_record};
ghost use Rattle.image.specs.Parts.{records_number, records_in};

use crate::{bits, judge};
use rules::{Marking, Record, Refusal, Table};

// The bytes of a record's fields before its count. A record of the time before counts is these alone.
pub const STATE_BYTES: usize = 8;

// The record that its first bytes hold as a number, beside its count.
fn record_of(w: u64, count: u32) -> Record
    ensures { result ≡ record_of_word w count }
{
    Record {
        age: ((w >> 33) % bits::TICKS) as u32,
        deadline: (w % bits::TICKS) as u32,
        happened: (w >> 63) % 2 == 1,
        included: (w >> 32) % 2 == 1,
        pending: (w >> 31) % 2 == 1,
        bounded: (w >> 30) % 2 == 1,
        count,
    }
}

// The number that the bytes before a record's count hold.
#[tactic(auto, using(crate::specs::Laws::Packed::machine_fits, crate::specs::Laws::Packed::flag_byte))]
fn word_of(r: &Record) -> u64
    requires { record_number r.now ≡ 0 }
    ensures { result ≡ word_of_record r.now }
{
    let mut w = r.happened as u64;
    w = w * bits::TICKS + r.age as u64;
    w = w * 2 + r.included as u64;
    w = w * 2 + r.pending as u64;
    w = w * 2 + r.bounded as u64;
    w * bits::TICKS + r.deadline as u64
}

// The record that its bytes hold.
fn record_from(bytes: &[u8]) -> Record
    requires { length bytes.now ≡ record_bytes }
    ensures { result ≡ record_at bytes.now 0 }
{
    let (state, count) = bytes.split_at(STATE_BYTES);
    record_of(bits::word(state), bits::word(count) as u32)
}

// The bytes become a record's.
fn put_record(r: &Record, bytes: &mut [u8])
    requires { (record_number r.now ≡ 0) × (length bytes.old ≡ record_bytes) }
    ensures { bytes.new ≡ record_image r.now }
{
    let (state, count) = bytes.split_at_mut(STATE_BYTES);
    bits::put_word(state, word_of(r));
    bits::put_word(count, r.count as u64);
}

// So many records, if each of them is judged 'done'.
pub fn records_in(events: usize, image: &[u8]) -> Result<Marking, Refusal>
    requires { (events ≤ most_events) × (length image.now ≡ record_bytes * events) }
    ensures number { number_of result ≡ records_number events image.now }
    ensures records { IfOk result (λ m. m ≡ records_in events image.now) }
{
    let mut records = [Record::EMPTY; Table::MOST_EVENTS];
    for e in 0..events {
        let at = Marking::RECORD_BYTES * e;
        let r = record_from(&image[at..at + Marking::RECORD_BYTES]);
        judge::record(&r)?;
        records[e] = r;
    }
    Ok(Marking { records, events })
}

// The records of a marking that is judged 'done', into a buffer with room for them.
pub fn put_records(m: &Marking, buffer: &mut [u8])
    requires { (marking_number m.now ≡ 0) × (record_bytes * m.now.events ≤ length buffer.old) }
    ensures { buffer.new ≡ marking_image m.now ++ drop (record_bytes * m.now.events) buffer.old }
{
    for (e, r) in m.records[..m.events].iter().enumerate() {
        let at = Marking::RECORD_BYTES * e;
        put_record(r, &mut buffer[at..at + Marking::RECORD_BYTES]);
    }
}

// The marking of an old image: each record has its old fields, and counts once if its event has happened.
pub fn carried_in(events: usize, old: &[u8]) -> Marking
    requires { (events ≤ most_events) × (length old.now ≡ old_record_bytes * events) }
    ensures { result ≡ carried events old.now }
{
    let mut records = [Record::EMPTY; Table::MOST_EVENTS];
    for e in 0..events {
        let at = STATE_BYTES * e;
        let w = bits::word(&old[at..at + STATE_BYTES]);
        records[e] = record_of(w, (w >> 63) as u32);
    }
    Marking { records, events }
}
