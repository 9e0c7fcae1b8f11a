// Tables and markings on the wire, judged or not.
use crate::answer::{Answer, Told};
use crate::payload::{Given, Payload};
use rules::{Marking, Record, Relation, Table};

impl Given for Relation {
    fn read(from: &mut Payload<'_>) -> Relation {
        Relation {
            kind: u8::read(from),
            left: u8::read(from),
            right: u8::read(from),
            bounded: bool::read(from),
            time: u32::read(from),
        }
    }
}

impl Told for Relation {
    fn put(&self, to: &mut Answer) {
        to.bytes(&[self.kind, self.left, self.right, u8::from(self.bounded)]);
        self.time.put(to);
    }
}

fn relations(from: &mut Payload<'_>) -> [Relation; Table::MOST_RELATIONS] {
    let mut relations = [Relation::EMPTY; Table::MOST_RELATIONS];
    from.each(&mut relations);
    relations
}

// A number stands for `firm`: it is true if the number is odd.
impl Given for Table {
    fn read(from: &mut Payload<'_>) -> Table {
        Table {
            relations: relations(from),
            controllable: u64::read(from),
            causable: u64::read(from),
            events: usize::read(from),
            count: usize::read(from),
            firm: u64::read(from) % 2 == 1,
        }
    }
}

impl Told for Table {
    fn put(&self, to: &mut Answer) {
        to.each(&self.relations);
        self.controllable.put(to);
        self.causable.put(to);
        self.events.put(to);
        self.count.put(to);
        u64::from(self.firm).put(to);
    }
}

impl Given for Record {
    fn read(from: &mut Payload<'_>) -> Record {
        Record {
            age: u32::read(from),
            deadline: u32::read(from),
            happened: bool::read(from),
            included: bool::read(from),
            pending: bool::read(from),
            bounded: bool::read(from),
            count: u32::read(from),
        }
    }
}

impl Told for Record {
    fn put(&self, to: &mut Answer) {
        self.age.put(to);
        self.deadline.put(to);
        self.happened.put(to);
        self.included.put(to);
        self.pending.put(to);
        self.bounded.put(to);
        self.count.put(to);
    }
}

fn records(from: &mut Payload<'_>) -> [Record; Table::MOST_EVENTS] {
    let mut records = [Record::EMPTY; Table::MOST_EVENTS];
    from.each(&mut records);
    records
}

impl Given for Marking {
    fn read(from: &mut Payload<'_>) -> Marking {
        Marking {
            records: records(from),
            events: usize::read(from),
        }
    }
}

impl Told for Marking {
    fn put(&self, to: &mut Answer) {
        to.each(&self.records);
        self.events.put(to);
    }
}
