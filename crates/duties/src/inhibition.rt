// All inhibitors of an event, and the cycles of those that are followed.
ghost use Rattle.std.specs.Prelude.{◌≡◌, ◌<◌, ◌^◌};
ghost use Rattle.rules.specs.declared.Table.{Table};
ghost use Rattle.rules.specs.Counting.{lowest};
ghost use Rattle.rules.specs.EventSet.{has};
ghost use Rattle.rules.specs.Check.{awaited, on_cycle};
ghost use Rattle.duties.specs.Inhibition.{Cleared, FollowingOf, inhibitors_in, place};

use crate::following::Following;
use acts::events::Events;
use acts::table_words::Rows;
use acts::{derived, event_set};

// The right events of e's conditions, of any time, and of its milestones, followed or not.
pub fn inhibitors(rows: &Rows, e: usize) -> u64
    requires { e < 64 }
    ensures { result ≡ inhibitors_in rows.now.words e }
{
    let at = derived::WIDTH * e;
    rows.words[at + derived::CONDITION]
        | rows.words[at + derived::TIMED]
        | rows.words[at + derived::MILESTONE]
}

// The event is reached from its own inhibitors.
fn cyclic(following: &Following, e: usize) -> bool
    requires { e < 64 }
    ensures { (t : Table) → FollowingOf t following.now → e < t.events → result ≡ has (awaited t e) e }
{
    event_set::has_event(following.reached(following.words[e]), e)
}

// One event more is cleared once all its inhibitors are: what is cleared is on no cycle.
fn clearing(following: &Following, cleared: u64, e: usize) -> u64
    requires e_bound { e < 64 }
    requires cleared { Cleared following.now.words cleared }
    ensures { Cleared following.now.words result }
{
    if event_set::without(following.words[e], cleared) == 0 {
        return event_set::adding(cleared, e);
    }
    cleared
}

// From the highest event of a set down: this clears what waits for higher events.
fn cleared_down(following: &Following, set: u64, cleared: u64) -> u64
    requires { Cleared following.now.words cleared }
    ensures { Cleared following.now.words result }
{
    let mut wider = cleared;
    for e in (0..64).rev() {
        if event_set::has_event(set, e) {
            wider = clearing(following, wider, e);
        }
    }
    wider
}

// From the lowest event up: this clears what waits for lower events.
fn cleared_up(following: &Following, set: u64, cleared: u64) -> u64
    requires { Cleared following.now.words cleared }
    ensures { Cleared following.now.words result }
{
    let mut wider = cleared;
    for e in Events::of(set) {
        wider = clearing(following, wider, e);
    }
    wider
}

// Three passes clear most events, and a search from each of the others is then cheap.
fn cleared(following: &Following, set: u64) -> u64
    ensures { Cleared following.now.words result }
{
    let down = cleared_down(following, set, 0);
    let both = cleared_up(following, set, down);
    cleared_down(following, set, both)
}

// The lowest event of a set that is reached from its own inhibitors.
pub fn first_cyclic(following: &Following, set: u64) -> Option<usize>
    ensures { (t : Table) → FollowingOf t following.now → set < 2 ^ t.events → result ≡ place 64 (lowest 64 (on_cycle t set)) }
{
    for e in Events::of(event_set::without(set, cleared(following, set))) {
        if cyclic(following, e) {
            return Some(e);
        }
    }
    None
}
