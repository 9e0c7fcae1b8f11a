// The needed events that are ready to be taken, kept up to date from one to the next.
ghost use Rattle.std.specs.Prelude.{◌≡◌, ◌&&◌, cond, ℕ, ◌<◌, eqb, length, get_or, replicate};
ghost use Rattle.rules.specs.EventSet.{has, with_event};
ghost use Rattle.duties.specs.Inhibition.{followed_in, ready_in};
ghost use Rattle.duties.specs.Taking.{Awaits};

use crate::{chosen, following};
use acts::event_set;
use acts::events::Events;
use acts::table_words::Rows;

// An event waits for each of the events of a set.
fn await_each(waiting: &mut [u64; 64], set: u64, e: usize)
    requires { (e < 64) × (length waiting.old ≡ 64) }
    ensures waiting_len { length waiting.new ≡ 64 }
    ensures by_index { (x : ℕ) → x < 64
        → get_or waiting.new x 0 ≡ cond (has set x) (with_event (get_or waiting.old x 0) e) (get_or waiting.old x 0) }
{
    for x in Events::of(set) {
        waiting[x] = event_set::adding(waiting[x], e);
    }
}

// The events of a set that have no inhibitor in it; of each other, that it waits for those inhibitors.
// Both in one pass: measured in two, by `free` and by `await_each`, a sleep took more instructions than it may.
pub fn ready(rows: &Rows, set: u64, waiting: &mut [u64; 64]) -> u64
    requires { waiting.old ≡ replicate 64 0 }
    ensures by_index { (x : ℕ) → has result x ≡ ready_in rows.now.words set x }
    ensures awaits { Awaits rows.now.words set waiting.new }
{
    let mut found = 0;
    for e in Events::of(set) {
        let inhibitors = following::followed(rows, set, set, e);
        found = event_set::with_if(found, inhibitors == 0, e);
        await_each(waiting, inhibitors, e);
    }
    found
}

// Of some events, those that have no inhibitor among the untaken.
pub fn free(rows: &Rows, events: u64, untaken: u64) -> u64
    ensures { (x : ℕ) → has result x ≡ (has events x && eqb (followed_in rows.now.words untaken untaken x) 0) }
{
    chosen::chosen(
        events,
        |e| following::followed(rows, untaken, untaken, e) == 0,
    )
}
