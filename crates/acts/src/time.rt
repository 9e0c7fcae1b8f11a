// Due events, the passing of one tick, and how many pass before an event is due.
ghost use Rattle.std.specs.Prelude.{◌≡◌, List, ℕ, ◌<◌, ◌≤◌, ◌+◌};
ghost use Rattle.rules.specs.declared.Record.{Record as Kept};
ghost use Rattle.rules.specs.declared.Marking.{Marking as Marked};
ghost use Rattle.rules.specs.EventSet.{has};
ghost use Rattle.rules.specs.Time.{due_set, time};
ghost use Rattle.rules.specs.Quiet.{quiet_ticks};
ghost use Rattle.acts.specs.Stands.{may_be_due};
ghost use Rattle.acts.specs.Words.{StandFor};

use crate::events::Events;
use crate::marking_words::MarkingWords;
use crate::{event_set, laid};

impl MarkingWords {
    // The included, pending and bounded events below n.
    fn bounded_pending(&self, n: usize) -> u64
        requires { (0 < n) × (n ≤ 64) }
        ensures { (x : ℕ) → has result x ≡ may_be_due self.now.sets n x }
    {
        self.sets[laid::INCLUDED]
            & self.sets[laid::PENDING]
            & self.sets[laid::BOUNDED]
            & event_set::first(n)
    }

    // The due events, of the first n.
    pub fn due(&self, n: usize) -> u64
        requires { (0 < n) × (n ≤ 64) }
        ensures { (tail : List Kept) (m : Marked) → StandFor n tail self.now m → result ≡ due_set m }
    {
        let mut found: u64 = 0;
        for e in Events::of(self.bounded_pending(n)) {
            found = event_set::with_if(found, self.columns[laid::DEADLINES + e] <= self.clock, e);
        }
        found
    }

    // One tick: the clock alone moves on.
    pub fn pass_tick(&mut self)
        requires { self.old.clock < 2147483648 }
        ensures stand { (n : ℕ) (tail : List Kept) (m : Marked) → StandFor n tail self.old m → StandFor n tail self.new (time m) }
        ensures clock { self.new.clock ≡ self.old.clock + 1 }
    {
        self.clock += 1;
    }

    // Of so many ticks, how many pass before one of the first n events is due: until the nearest date of those that may be. No tick is looked at.
    pub fn quiet(&self, n: usize, most: u32) -> u32
        requires { (0 < n) × (n ≤ 64) × (most ≤ 2147483647) }
        ensures upper_bound { result ≤ most }
        ensures value { (tail : List Kept) (m : Marked) → StandFor n tail self.now m → result ≡ quiet_ticks m most }
    {
        let mut nearest = self.clock + most;
        for e in Events::of(self.bounded_pending(n)) {
            nearest = nearest.min(self.columns[laid::DEADLINES + e]);
        }
        nearest.saturating_sub(self.clock)
    }
}
