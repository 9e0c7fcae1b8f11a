// The closure, the check, the guarded tick, and how many of these are quiet.
use crate::fold::{self, Fold};
use crate::turns;
use rules::Closure;

#[unsafe(no_mangle)]
pub extern "C" fn timing_closure(table: &[u8], marking: &[u8], times: usize) -> u64 {
    turns::of_both(table, marking, times, |t, m, sum| {
        let refused = Closure { set: 0, size: 0 };
        fold::outcome(sum, &engine::closure(t, m), &refused)
    })
}

#[unsafe(no_mangle)]
pub extern "C" fn timing_check(table: &[u8], marking: &[u8], times: usize) -> u64 {
    turns::of_both(
        table,
        marking,
        times,
        |t, m, sum| engine::check(t, m).fold(sum),
    )
}

// On from the answer, or from the same marking each time, with event 0 set back.
#[unsafe(no_mangle)]
pub extern "C" fn timing_guarded_tick(table: &[u8], marking: &[u8], on: bool, times: usize) -> u64 {
    turns::of_both(table, marking, times, |t, m, sum| {
        let answer = engine::guarded_tick(t, m);
        let next = fold::outcome(sum, &answer, &(0usize, &*m));
        if on && let Ok(guarded) = answer {
            *m = guarded.marking;
        }
        next
    })
}

#[unsafe(no_mangle)]
pub extern "C" fn timing_quiet(table: &[u8], marking: &[u8], times: usize) -> u64 {
    turns::of_both(table, marking, times, |t, m, sum| {
        fold::outcome(sum, &sleep::quiet(t, m), &0usize)
    })
}
