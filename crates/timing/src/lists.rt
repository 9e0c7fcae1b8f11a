// The calls that are lent lists: remedies, the chain, sleep, the runner over bytes, the station.
use crate::{fold, turns};

#[unsafe(no_mangle)]
pub extern "C" fn timing_remedies<'a>(
    table: &[u8],
    marking: &[u8],
    preferred: &'a [u8],
    fallback: &'a [u8],
    times: usize,
) -> u64 {
    turns::of_both(table, marking, times, |t, m, sum| {
        let remedy = engine::remedies(t, m, preferred, fallback);
        let length = remedy.map(|remedy| remedy.start.len());
        fold::outcome(sum, &length, &0usize)
    })
}

#[unsafe(no_mangle)]
pub extern "C" fn timing_chain(
    table: &[u8],
    marking: &[u8],
    event: usize,
    list: &mut [u16],
    times: usize,
) -> u64 {
    turns::of_both(table, marking, times, |t, m, sum| {
        let count = chain::chain(t, m, event, list);
        let last = fold::last_place(list, count.unwrap_or(0));
        fold::taken(fold::outcome(sum, &count, &0usize), last)
    })
}

#[unsafe(no_mangle)]
pub extern "C" fn timing_sleep(
    table: &[u8],
    marking: &[u8],
    ticks: usize,
    list: &mut [u32],
    times: usize,
) -> u64 {
    turns::of_both(table, marking, times, |t, m, sum| {
        let slept = sleep::sleep(t, m, ticks, list);
        let count = slept.as_ref().map_or(0, |slept| slept.count);
        let last = fold::last_place(list, count);
        fold::taken(fold::outcome(sum, &slept, &(0usize, &*m)), last)
    })
}

#[unsafe(no_mangle)]
pub extern "C" fn timing_run_bytes(
    table: &[u8],
    marking: &[u8],
    steps: &[u8],
    answers: &mut [u8],
    times: usize,
) -> u64 {
    turns::of_both(table, marking, times, |t, m, sum| {
        let end = engine::run_bytes(t, m, steps, answers);
        fold::outcome(sum, &end, &*m)
    })
}

// Once: its costs are those of a run, and only its stack is measured.
#[unsafe(no_mangle)]
pub extern "C" fn timing_station(input: &[u8], output: &mut [u8]) -> usize {
    engine::station(input, 0, output).unwrap_or(0)
}
