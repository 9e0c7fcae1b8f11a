// The decoded types, and what the public calls answer or refuse with. What they mean stands in specs/.
#![tactic(auto)]

mod answers;
mod refusal;
mod verdict;

ghost use Rattle.std.specs.Prelude.{◌≡◌};
ghost use Rattle.rules.specs.Holds.{empty_marking};
ghost use Rattle.rules.specs.Results.{as_marking};
ghost use Rattle.rules.specs.Image.{fresh as freshAnswer};

pub use answers::{Closure, Guarded, HoldUp, Margin, Slept};
pub use refusal::Refusal;
pub use verdict::{CheckError, Reason, Rejection};

// A condition, response, inclusion, exclusion or milestone: left first, right second.
#[derive(Clone, Copy)]
pub struct Relation {
    pub kind: u8,
    pub left: u8,
    pub right: u8,
    pub bounded: bool,
    pub time: u32,
}

// A table. Event n is in a class if the class's set has the bit worth 2^n; `count` is the number of relations; in a firm table no response moves
// a deadline out.
#[derive(Clone, Copy)]
pub struct Table {
    pub relations: [Relation; Table::MOST_RELATIONS],
    pub controllable: u64,
    pub causable: u64,
    pub events: usize,
    pub count: usize,
    pub firm: bool,
}

// What a marking holds of one event. `count` is how often it was executed.
#[derive(Clone, Copy)]
pub struct Record {
    pub age: u32,
    pub deadline: u32,
    pub happened: bool,
    pub included: bool,
    pub pending: bool,
    pub bounded: bool,
    pub count: u32,
}

#[derive(Clone, Copy)]
pub struct Marking {
    pub records: [Record; Table::MOST_EVENTS],
    pub events: usize,
}

// An offered list has at most so many events.
pub const LONGEST_LIST: usize = 255;

// One step of a trace, of one of the kinds below; ticks have event 0.
#[derive(Clone, Copy)]
pub struct Step {
    pub kind: u8,
    pub event: u8,
}

impl Relation {
    // Every field 0.
    pub const EMPTY: Relation = Relation {
        kind: 0,
        left: 0,
        right: 0,
        bounded: false,
        time: 0,
    };
}

impl Record {
    // Every field 0.
    pub const EMPTY: Record = Record {
        age: 0,
        deadline: 0,
        happened: false,
        included: false,
        pending: false,
        bounded: false,
        count: 0,
    };

    // Of an event that may happen, and did not yet.
    pub const FRESH: Record = Record {
        age: 0,
        deadline: 0,
        happened: false,
        included: true,
        pending: false,
        bounded: false,
        count: 0,
    };
}

impl Table {
    // A table has at most so many events.
    pub const MOST_EVENTS: usize = 64;

    // A table has at most so many relations.
    pub const MOST_RELATIONS: usize = 256;
}

impl Marking {
    // Ages, times and deadlines are at most this.
    pub const AGE_LIMIT: u32 = 1_000_000_000;

    // A count is held at this.
    pub const COUNT_LIMIT: u32 = 4_294_967_295;

    // The bytes of a record in a marking's image.
    pub const RECORD_BYTES: usize = 12;

    // No events, and every place empty.
    pub fn empty() -> Marking
        ensures { result ≡ empty_marking }
    {
        Marking {
            records: [Record::EMPTY; Table::MOST_EVENTS],
            events: 0,
        }
    }

    // A fresh marking: not happened, included, not pending; 0 or above 64 events gives 3.
    pub fn fresh(events: usize) -> Result<Marking, Refusal>
        ensures { as_marking empty_marking result ≡ freshAnswer events }
    {
        if events < 1 || Table::MOST_EVENTS < events {
            return Err(Refusal::Counts);
        }
        let mut marking = Marking::empty();
        for i in 0..events {
            marking.records[i] = Record::FRESH;
        }
        marking.events = events;
        Ok(marking)
    }
}

impl Step {
    // A trace has at most so many steps.
    pub const MOST: usize = 4096;

    // The kinds; the first two both mean that an event happens.
    pub const HAPPEN: u8 = 0;

    pub const LAST_HAPPEN: u8 = 1;

    pub const PLAIN_TICK: u8 = 2;

    pub const GUARDED_TICK: u8 = 3;
}
