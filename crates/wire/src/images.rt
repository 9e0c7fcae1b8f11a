// The image reader's calls, and a fresh marking. An event count comes first where a call is given one; a marking, an image or a buffer is
// behind it. A buffer to write to is behind what is written.
use crate::answer::Answer;
use crate::payload::{Given, Payload};
use rules::{Marking, Refusal, Relation, Table};

// What stands for a table in a refusal. A constant: a `static` the borrow checker does not cover.
const NO_TABLE: Table = Table {
    relations: [Relation::EMPTY; Table::MOST_RELATIONS],
    controllable: 0,
    causable: 0,
    events: 0,
    count: 0,
    firm: false,
};

pub fn read_table(payload: &[u8], answer: &mut Answer) {
    answer.result(image::read_table(payload), NO_TABLE);
}

pub fn read_marking(payload: &[u8], answer: &mut Answer) {
    let mut from = Payload::new(payload);
    let events = usize::read(&mut from);
    answer.result(image::read_marking(events, from.rest()), Marking::empty());
}

pub fn fresh(payload: &[u8], answer: &mut Answer) {
    let events = usize::read(&mut Payload::new(payload));
    answer.result(Marking::fresh(events), Marking::empty());
}

pub fn judge_table(payload: &[u8], answer: &mut Answer) {
    let table = Table::read(&mut Payload::new(payload));
    answer.result(image::judge_table(&table), ());
}

pub fn judge_marking(payload: &[u8], answer: &mut Answer) {
    let mut from = Payload::new(payload);
    let events = usize::read(&mut from);
    let marking = Marking::read(&mut from);
    answer.result(image::judge_marking(events, &marking), ());
}

// Lends a call the buffer that is left of the payload; behind its number the whole buffer is told.
fn written<F>(buffer: Payload<'_>, answer: &mut Answer, write: F)
where
    F: FnOnce(&mut [u8]) -> Result<(), Refusal>,
    requires { F.IsAlwaysCallable write }
{
    let bytes = buffer.rest();
    let result = write(answer.lent(1, bytes));
    answer.result(result, ());
    answer.past(bytes.len());
}

pub fn write_table(payload: &[u8], answer: &mut Answer) {
    let mut from = Payload::new(payload);
    let table = Table::read(&mut from);
    written(from, answer, |buffer| image::write_table(&table, buffer));
}

pub fn write_marking(payload: &[u8], answer: &mut Answer) {
    let mut from = Payload::new(payload);
    let marking = Marking::read(&mut from);
    written(
        from,
        answer,
        |buffer| image::write_marking(&marking, buffer),
    );
}

// Behind the event count come the old image, which has its length before it, and the buffer.
pub fn carry_marking(payload: &[u8], answer: &mut Answer) {
    let mut from = Payload::new(payload);
    let events = usize::read(&mut from);
    let old = from.list();
    written(
        from,
        answer,
        |buffer| image::carry_marking(events, old, buffer),
    );
}

// Functions of `image` that no call over the wire uses.
#[cfg(test)]
mod tests {
    // Controllable is the first bit, causable the second, and 6 spare bits are 0.
    #[test]
    fn class_bytes(rt: HostRuntime) {
        let classes = image::Classes {
            controllable: 1 << 1 | 1 << 3 | 1 << 63,
            causable: 1 << 2 | 1 << 3,
        };
        for (e, want) in [(0, 0), (1, 128), (2, 64), (3, 192), (4, 0), (63, 128)] {
            assert_eq!(rt; classes.byte(e), want, "event {e}");
        }
    }
}
