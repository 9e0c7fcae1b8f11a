// The relations of a table, in and out of an image, and the table whole.
ghost use Rattle.std.specs.Prelude.{◌≡◌, ◌++◌, ◌+◌, ◌*◌, ◌≤◌, length, take, drop, IfOk};
ghost use Rattle.rules.specs.Holds.{most_events};
ghost use Rattle.rules.specs.Fields.{bytes_of};
ghost use Rattle.rules.specs.Pieces.{pieces};
ghost use Rattle.rules.specs.Judge.{table_number};
ghost use Rattle.rules.specs.Image.{table_length, place_image, table_image};
ghost use Rattle.rules.specs.Results.{number_of};
ghost use Rattle.image.specs.Packed.{relation_of_word, ends_word, class_word};
ghost use Rattle.image.specs.Parts.{relations_number, table_beside};

use crate::classes::Classes;
use crate::header::Header;
use crate::{bits, judge};
use rules::{Refusal, Relation, Table};

// The relation that 6 bytes hold.
fn relation_of(w: u64) -> Relation
    ensures { result ≡ relation_of_word w }
{
    Relation {
        kind: ((w >> 45) % 8) as u8,
        left: ((w >> 39) % 64) as u8,
        right: ((w >> 33) % 64) as u8,
        bounded: (w >> 32) % 2 == 1,
        time: ((w >> 2) % bits::TICKS) as u32,
    }
}

// The table of an image with this header and these classes, if each of its relations is judged 'done'. The relations stand alone until then: filled
// in the table itself they took 2,000 instructions more.
pub fn table_in(image: &[u8], header: Header, classes: Classes) -> Result<Table, Refusal>
    requires { length image.now ≡ table_length header.events header.count }
    ensures number { number_of result ≡ relations_number image.now header.events header.count }
    ensures table { IfOk result (λ t. t ≡ table_beside image.now header classes) }
{
    let mut relations = [Relation::EMPTY; Table::MOST_RELATIONS];
    for k in 0..header.count {
        let at = 4 + header.events + 6 * k;
        let w = bits::word(&image[at..at + 6]);
        if w % 4 != 0 {
            return Err(Refusal::SpareBit);
        }
        let relation = relation_of(w);
        judge::relation(header.events, &relation)?;
        relations[k] = relation;
    }
    Ok(Table {
        relations,
        controllable: classes.controllable,
        causable: classes.causable,
        events: header.events,
        count: header.count,
        firm: header.firm,
    })
}

// The number that a relation's first 2 bytes hold: all but the time.
fn ends_of(kind: u8, left: u8, right: u8, bounded: bool) -> u64
    ensures { result ≡ ends_word kind left right bounded }
{
    let mut w = kind as u64;
    w = w * 64 + left as u64;
    w = w * 64 + right as u64;
    w * 2 + bounded as u64
}

// The 6 bytes of a relation. In two parts: of one number of 6 bytes the compiler makes more instructions.
fn put_relation(ends: u64, time: u32, bytes: &mut [u8])
    requires { length bytes.old ≡ 6 }
    ensures { bytes.new ≡ bytes_of 2 ends ++ bytes_of 4 (time * 4) }
{
    let (front, back) = bytes.split_at_mut(2);
    bits::put_word(front, ends);
    bits::put_word(back, time as u64 * 4);
}

// The classes of so many events, a byte each behind the header, into a buffer with room for them.
fn put_classes(classes: Classes, events: usize, buffer: &mut [u8])
    requires { (events ≤ most_events) × (4 + events ≤ length buffer.old) }
    ensures { buffer.new ≡ take 4 buffer.old
        ++ pieces (λ e. bytes_of 1 (class_word classes.controllable classes.causable e)) 0 events ++ drop (4 + events) buffer.old }
{
    for e in 0..events {
        buffer[4 + e] = classes.byte(e);
    }
}

// The relations of a table that is judged 'done', 6 bytes each behind the classes, into a buffer with room for them. Field by field: a relation
// that is copied first costs more instructions.
fn put_relations(t: &Table, buffer: &mut [u8])
    requires { (table_number t.now ≡ 0) × (table_length t.now.events t.now.count ≤ length buffer.old) }
    ensures { buffer.new ≡ take (4 + t.now.events) buffer.old
        ++ pieces (place_image t.now) 0 t.now.count ++ drop (table_length t.now.events t.now.count) buffer.old }
{
    for (i, k) in t.relations[..t.count].iter().enumerate() {
        let at = 4 + t.events + 6 * i;
        let ends = ends_of(k.kind, k.left, k.right, k.bounded);
        put_relation(ends, k.time, &mut buffer[at..at + 6]);
    }
}

// A table that is judged 'done', into a buffer with room for it.
pub fn put_table(t: &Table, buffer: &mut [u8])
    requires { (table_number t.now ≡ 0) × (table_length t.now.events t.now.count ≤ length buffer.old) }
    ensures { buffer.new ≡ table_image t.now ++ drop (table_length t.now.events t.now.count) buffer.old }
{
    let header = Header {
        events: t.events,
        count: t.count,
        firm: t.firm,
    };
    let classes = Classes {
        controllable: t.controllable,
        causable: t.causable,
    };
    bits::put_word(&mut buffer[..4], header.word());
    put_classes(classes, t.events, buffer);
    put_relations(t, buffer);
}
