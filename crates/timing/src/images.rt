// Reading, writing and judging. A lent image is changed from turn to turn in event 0: the class byte, the low bits of the age. Of a table that
// is written the sum decides which events are controllable, and the class byte of event 1 is taken into it.
use crate::fold::{self, Fold};
use crate::turns;
use rules::Marking;

// A closure keeps no bound of a buffer that it is lent, so these two ask again.
fn set(bytes: &mut [u8], at: usize, byte: u8) {
    if let Some(place) = bytes.get_mut(at) {
        *place = byte;
    }
}

fn byte(bytes: &[u8], at: usize) -> u8 {
    bytes.get(at).copied().unwrap_or(0)
}

// In a loop of its own: a closure clears a place for the table before each call, and that would be counted as the reader's.
#[unsafe(no_mangle)]
pub extern "C" fn timing_read_table(bytes: &mut [u8], times: usize) -> u64 {
    if bytes.len() < 5 {
        return 0;
    }
    let mut sum = 1;
    for _ in 0..times {
        bytes[4] = 64 + 128 * (sum % 2) as u8;
        sum = fold::outcome(sum, &image::read_table(bytes), &turns::NO_TABLE);
    }
    sum
}

#[unsafe(no_mangle)]
pub extern "C" fn timing_write_table(table: &[u8], buffer: &mut [u8], times: usize) -> u64 {
    if buffer.len() < 6 {
        return 0;
    }
    let mut t = turns::table(table);
    turns::sums(times, |sum| {
        t.controllable = sum;
        let written = fold::outcome(sum, &image::write_table(&t, buffer), &());
        byte(buffer, 5).fold(written)
    })
}

// Any marking's record 0 begins with the age.
#[unsafe(no_mangle)]
pub extern "C" fn timing_read_marking(events: usize, bytes: &mut [u8], times: usize) -> u64 {
    if bytes.len() < Marking::RECORD_BYTES {
        return 0;
    }
    let empty = Marking::empty();
    turns::sums(times, |sum| {
        set(bytes, 3, 1 + 2 * (sum % 128) as u8);
        fold::outcome(sum, &image::read_marking(events, bytes), &empty)
    })
}

#[unsafe(no_mangle)]
pub extern "C" fn timing_write_marking(
    events: usize,
    marking: &[u8],
    buffer: &mut [u8],
    times: usize,
) -> u64 {
    turns::turns(
        &(),
        &mut turns::marking(events, marking),
        times,
        |_, m, sum| { fold::outcome(sum, &image::write_marking(m, buffer), &()) },
    )
}

// An old image is changed in the same way, and its changed byte, where it is carried to, is taken into the sum.
#[unsafe(no_mangle)]
pub extern "C" fn timing_carry_marking(
    events: usize,
    old: &mut [u8],
    buffer: &mut [u8],
    times: usize,
) -> u64 {
    if old.len() < 4 || buffer.len() < 4 {
        return 0;
    }
    turns::sums(times, |sum| {
        set(old, 3, 1 + 2 * (sum % 128) as u8);
        let carried = fold::outcome(sum, &image::carry_marking(events, old, buffer), &());
        byte(buffer, 3).fold(carried)
    })
}

#[unsafe(no_mangle)]
pub extern "C" fn timing_fresh(times: usize) -> u64 {
    let empty = Marking::empty();
    turns::sums(times, |sum| {
        fold::outcome(sum, &Marking::fresh(fold::below(65, sum)), &empty)
    })
}

#[unsafe(no_mangle)]
pub extern "C" fn timing_judge_table(table: &[u8], times: usize) -> u64 {
    let mut t = turns::table(table);
    turns::sums(times, |sum| {
        t.relations[0].time = (sum % 1024) as u32;
        fold::outcome(sum, &image::judge_table(&t), &())
    })
}

#[unsafe(no_mangle)]
pub extern "C" fn timing_judge_marking(events: usize, marking: &[u8], times: usize) -> u64 {
    turns::turns(
        &events,
        &mut turns::marking(events, marking),
        times,
        |events, m, sum| { fold::outcome(sum, &image::judge_marking(*events, m), &()) },
    )
}
