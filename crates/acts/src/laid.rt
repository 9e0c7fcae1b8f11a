// The marking as words: four sets of events, and for each event, in columns, the tick at which its age is full, the tick at which its
// deadline is over, and its count. The ticks are told against a clock, so a tick moves the clock and nothing else.
ghost use Rattle.std.specs.Prelude.{◌≡◌, ◌++◌, ◌<◌, ◌≤◌, ◌-◌, length, drop};
ghost use Rattle.rules.specs.declared.Marking.{Marking as Marked};
ghost use Rattle.rules.specs.Counting.{places};
ghost use Rattle.rules.specs.Holds.{limit};
ghost use Rattle.rules.specs.Shapes.Good.{GoodMarking};
ghost use Rattle.acts.specs.Stands.{record_in, age_at, Stands};
ghost use Rattle.acts.specs.Words.{StandFor};

use crate::event_set;
use crate::marking_words::MarkingWords;
use rules::{Marking, Record};

// The places of the sets.
pub const HAPPENED: usize = 0;

pub const INCLUDED: usize = 1;

pub const PENDING: usize = 2;

pub const BOUNDED: usize = 3;

// Where a column begins: the ticks at which ages are full, then the ticks at which deadlines are over, then the counts.
pub const AGES: usize = 0;

pub const DEADLINES: usize = 64;

pub const COUNTS: usize = 128;

// 64 places for each column.
pub type Columns = [u32; 192];

// How many ticks are left until an age is full.
fn to_full(age: u32) -> u32
    ensures { result ≡ limit - age }
{
    Marking::AGE_LIMIT.saturating_sub(age)
}

// The four sets of a judged marking. Its dates and counts go into the columns.
fn sets_of(m: &Marking, columns: &mut Columns) -> [u64; 4]
    requires events_bound { m.now.events ≤ 64 }
    requires columns_len { length columns.old ≡ 192 }
    ensures { GoodMarking m.now.events m.now → Stands m.now.events (drop m.now.events m.now.records) 0 result columns.new m.now }
{
    let mut happened = 0;
    let mut included = 0;
    let mut pending = 0;
    let mut bounded = 0;
    for i in 0..m.events {
        let r = m.records[i];
        columns[i] = to_full(r.age);
        columns[DEADLINES + i] = r.deadline;
        columns[COUNTS + i] = r.count;
        happened = event_set::with_if(happened, r.happened, i);
        included = event_set::with_if(included, r.included, i);
        pending = event_set::with_if(pending, r.pending, i);
        bounded = event_set::with_if(bounded, r.bounded, i);
    }
    [happened, included, pending, bounded]
}

impl MarkingWords {
    // A judged marking as words, at tick 0. It is put into its callers, which copy no words then.
    #[inline(always)]
    pub fn of(m: &Marking) -> MarkingWords
        requires { m.now.events ≤ 64 }
        ensures stand { GoodMarking m.now.events m.now → StandFor m.now.events (drop m.now.events m.now.records) result m.now }
        ensures clock { result.clock ≡ 0 }
    {
        let mut words = MarkingWords {
            clock: 0,
            sets: [0; 4],
            columns: [0; 192],
        };
        let sets = sets_of(m, &mut words.columns);
        words.sets = sets;
        words
    }

    // The age of an event that has happened.
    pub fn age_at(&self, e: usize) -> u32
        requires { e < 64 }
        ensures { result ≡ age_at self.now.clock self.now.columns e }
    {
        to_full(self.columns[AGES + e].saturating_sub(self.clock))
    }

    // The record of event e.
    fn record_at(&self, e: usize) -> Record
        requires { e < 64 }
        ensures { result ≡ record_in self.now.clock self.now.sets self.now.columns e }
    {
        let happened = event_set::has_event(self.sets[HAPPENED], e);
        let bounded = event_set::has_event(self.sets[BOUNDED], e);
        Record {
            age: if happened { self.age_at(e) } else { 0 },
            deadline: if bounded {
                self.columns[DEADLINES + e].saturating_sub(self.clock)
            } else {
                0
            },
            happened,
            included: event_set::has_event(self.sets[INCLUDED], e),
            pending: event_set::has_event(self.sets[PENDING], e),
            bounded,
            count: self.columns[COUNTS + e],
        }
    }

    // The records of the first n events, put in the place of others.
    fn give(&self, records: &mut [Record; 64], n: usize)
        requires { n ≤ 64 }
        ensures { records.new ≡ places n (record_in self.now.clock self.now.sets self.now.columns) ++ drop n records.old }
    {
        for e in 0..n {
            records[e] = self.record_at(e);
        }
    }

    // The marking that the words stand for: that which was laid out, with other records; its unused places are as they were. It is put
    // into its callers, which copy no marking besides then.
    #[inline(always)]
    pub fn marking(&self, laid_out: &Marking) -> Marking
        requires { laid_out.now.events ≤ 64 }
        ensures { (after : Marked) → StandFor laid_out.now.events (drop laid_out.now.events laid_out.now.records) self.now after
            → result ≡ after }
    {
        let mut after = *laid_out;
        self.give(&mut after.records, laid_out.events);
        after
    }
}
