// The account of a run. It reads the station program's input and writes what the station's answer bytes leave out: why the check rejects and
// where, and which events a guarded tick caused. It asks the engine's public calls, one for each step, and hands the marking on; so what
// it writes holds the station's answers and end marking against calls that the station does not make.
// A read that is refused: its number, one byte. Else a record of the check before the first step, a record for each step, and the end
// marking's image. Whether the whole trace is granted is the station's to say: here each step is played that is kept whole.
// A failed read or write is not told: the account is then shorter than its input asks, and the reader sees that.
#![tactic(auto)]

mod record;
mod step;

use rules::{Marking, Refusal, Table};
use std::io::Stdout;

// The first bytes, so many, or all if there are fewer; and what comes after them.
fn split(bytes: &[u8], count: usize) -> (&[u8], &[u8]) {
    bytes.split_at(count.min(bytes.len()))
}

// As many bytes as the table's header says: events in 7 bits, relations in 9. An input that is shorter than a header is the reader's to refuse.
fn table_bytes(input: &[u8]) -> usize {
    let Some([first, second, _, _]) = input.first_chunk::<4>() else {
        return input.len();
    };
    let header = u16::from_be_bytes([*first, *second]) as usize;
    4 + header / 512 + 6 * (header % 512)
}

// The bytes of a marking for so many events.
fn marking_bytes(events: usize) -> usize {
    Marking::RECORD_BYTES * events.min(Table::MOST_EVENTS)
}

fn end(out: Stdout, m: &Marking) {
    let mut room = [0u8; Marking::RECORD_BYTES * Table::MOST_EVENTS];
    if image::write_marking(m, &mut room).is_ok() {
        let (image, _) = split(&room, marking_bytes(m.events));
        let _ = streams::write_all(out, image);
    }
}

// The table and the marking are read, the check asked, the steps behind them are played.
fn account(out: Stdout, input: &[u8]) -> Result<(), Refusal> {
    let (image, rest) = split(input, table_bytes(input));
    let table = image::read_table(image)?;
    let (image, steps) = split(rest, marking_bytes(table.events));
    let marking = image::read_marking(table.events, image)?;
    let nothing: &[u8] = &[];
    record::put(out, engine::check(&table, &marking).map(|()| nothing));
    end(out, &step::play(out, &table, marking, steps));
    Ok(())
}

fn main(rt: HostRuntime) {
    let mut input = [0u8; engine::LONGEST_INPUT];
    let kept = streams::read_full(rt.stdin(), &mut input);
    if let Err(refusal) = account(rt.stdout(), &input[..kept]) {
        let _ = streams::write_all(rt.stdout(), &[u8::from(refusal)]);
    }
}
