// The image reader: tables and markings in and out. Nothing enters the engine that it did not judge, and nothing leaves that it cannot read back.
#![tactic(auto)]

mod bits;
mod classes;
mod header;
mod judge;
pub mod judging;
mod marking;
mod table;

ghost use Rattle.std.specs.Prelude.{◌≡◌, length};
ghost use Rattle.rules.specs.Holds.{empty_marking};
ghost use Rattle.rules.specs.Judge.{table_number, marking_number_for};
ghost use Rattle.rules.specs.Image.{read_table, write_table_number, write_table, read_marking, write_number, write_marking};
ghost use Rattle.rules.specs.Carrying.{carry_number, carry_marking};
ghost use Rattle.rules.specs.Results.{number_of, as_table, as_marking};

pub use classes::{Classes, classes_from};
use header::Header;
use rules::{Marking, Refusal, Table};

// The table of an image, or the first rule that it breaks.
pub fn read_table(image: &[u8]) -> Result<Table, Refusal>
    ensures { as_table result ≡ read_table image.now }
{
    let header = Header::of(image)?;
    let classes = classes_from(&image[4..4 + header.events])?;
    table::table_in(image, header, classes)
}

// A table's image into the first bytes of a lent buffer; a refusal leaves every byte.
#[tactic(auto, using(crate::specs::Laws::Parts::table_few), unfolding(rules::specs::Image::write_table_number, rules::specs::Image::write_table))]
pub fn write_table(t: &Table, buffer: &mut [u8]) -> Result<(), Refusal>
    ensures number { number_of result ≡ write_table_number t.now (length buffer.old) }
    ensures bytes { buffer.new ≡ write_table t.now buffer.old }
{
    judge_table(t)?;
    if buffer.len() < 4 + t.events + 6 * t.count {
        return Err(Refusal::Room);
    }
    table::put_table(t, buffer);
    Ok(())
}

// The marking of an image for so many events, or the first rule that it breaks.
#[tactic(auto, unfolding(rules::specs::Image::read_marking, rules::specs::Image::marking_image_number))]
#[inline(never)]
pub fn read_marking(events: usize, image: &[u8]) -> Result<Marking, Refusal>
    ensures { as_marking empty_marking result ≡ read_marking events image.now }
{
    judge::events(events)?;
    if image.len() != Marking::RECORD_BYTES * events {
        return Err(Refusal::Length);
    }
    marking::records_in(events, image)
}

// A marking's image into the first bytes of a lent buffer; a refusal leaves every byte.
#[tactic(auto, using(crate::specs::Laws::Parts::events_few), unfolding(rules::specs::Image::write_number, rules::specs::Image::write_marking))]
pub fn write_marking(m: &Marking, buffer: &mut [u8]) -> Result<(), Refusal>
    ensures number { number_of result ≡ write_number m.now (length buffer.old) }
    ensures bytes { buffer.new ≡ write_marking m.now buffer.old }
{
    judge::marking(m)?;
    if buffer.len() < Marking::RECORD_BYTES * m.events {
        return Err(Refusal::Room);
    }
    marking::put_records(m, buffer);
    Ok(())
}

// An image of the time before counts, carried over into the first bytes of a lent buffer; a refusal leaves every byte.
#[tactic(auto, unfolding(rules::specs::Carrying::carry_number, rules::specs::Carrying::carry_marking))]
pub fn carry_marking(events: usize, old: &[u8], buffer: &mut [u8]) -> Result<(), Refusal>
    ensures number { number_of result ≡ carry_number events old.now (length buffer.old) }
    ensures bytes { buffer.new ≡ carry_marking events old.now buffer.old }
{
    judge::events(events)?;
    if old.len() != marking::STATE_BYTES * events {
        return Err(Refusal::Length);
    }
    write_marking(&marking::carried_in(events, old), buffer)
}

// Whether the reader would accept a decoded table's image.
#[tactic(auto, unfolding(rules::specs::Judge::table_number))]
pub fn judge_table(t: &Table) -> Result<(), Refusal>
    ensures { number_of result ≡ table_number t.now }
{
    judge::counts(t.events, t.count)?;
    judge::relations(t)
}

// Whether the reader would accept a decoded marking's image for so many events.
#[tactic(auto, unfolding(rules::specs::Judge::marking_number_for))]
pub fn judge_marking(events: usize, m: &Marking) -> Result<(), Refusal>
    ensures { number_of result ≡ marking_number_for events m.now }
{
    judge::events(events)?;
    if m.events != events {
        return Err(Refusal::Length);
    }
    judge::marking(m)
}
