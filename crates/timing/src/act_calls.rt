// Events and plain ticks. A call that moves on does so from its own answer, with event 0 set back.
use crate::fold::{self, Fold};
use crate::turns;
use rules::{Marking, Refusal};

#[unsafe(no_mangle)]
pub extern "C" fn timing_enabled(table: &[u8], marking: &[u8], times: usize) -> u64 {
    turns::of_both(table, marking, times, |t, m, sum| {
        let event = fold::below(t.events, sum);
        fold::outcome(sum, &engine::enabled(t, m, event), &false)
    })
}

#[unsafe(no_mangle)]
pub extern "C" fn timing_hold_up(table: &[u8], marking: &[u8], times: usize) -> u64 {
    turns::of_both(table, marking, times, |t, m, sum| {
        engine::hold_up(t, m, fold::below(t.events, sum)).fold(sum)
    })
}

#[unsafe(no_mangle)]
pub extern "C" fn timing_margin(table: &[u8], marking: &[u8], times: usize) -> u64 {
    turns::of_both(table, marking, times, |t, m, sum| {
        engine::margin(t, m, fold::below(t.count, sum)).fold(sum)
    })
}

#[unsafe(no_mangle)]
pub extern "C" fn timing_due(table: &[u8], marking: &[u8], times: usize) -> u64 {
    turns::of_both(table, marking, times, |t, m, sum| {
        fold::outcome(sum, &engine::due(t, m), &0u64)
    })
}

// On from the answer, where there is one.
fn moved(m: &mut Marking, answer: Result<Marking, Refusal>, sum: u64) -> u64 {
    let next = fold::outcome(sum, &answer, m);
    if let Ok(after) = answer {
        *m = after;
    }
    next
}

#[unsafe(no_mangle)]
pub extern "C" fn timing_happen(table: &[u8], marking: &[u8], last: usize, times: usize) -> u64 {
    turns::of_both(table, marking, times, |t, m, sum| {
        let answer = engine::happen(t, m, last);
        moved(m, answer, sum)
    })
}

#[unsafe(no_mangle)]
pub extern "C" fn timing_plain_tick(table: &[u8], marking: &[u8], times: usize) -> u64 {
    turns::of_both(table, marking, times, |t, m, sum| {
        let answer = engine::plain_tick(t, m);
        moved(m, answer, sum)
    })
}
