// What the calls tell that is more than a number, a table or a marking.
use crate::answer::{Answer, Told};
use rules::{Closure, Guarded, HoldUp, Margin, Slept};

impl Told for Closure {
    fn put(&self, to: &mut Answer) {
        self.set.put(to);
        self.size.put(to);
    }
}

// Which case it is, and the ticks in two's complement.
impl Told for Margin {
    fn put(&self, to: &mut Answer) {
        let (case, ticks) = match *self {
            Margin::NotACondition => (0u8, 0),
            Margin::Ignored(None) => (1, 0),
            Margin::Counts(None) => (2, 0),
            Margin::Counts(Some(ticks)) => (3, ticks),
            Margin::Ignored(Some(ticks)) => (4, ticks),
        };
        case.put(to);
        ticks.cast_unsigned().put(to);
    }
}

// Which case it is, and a relation.
impl Told for HoldUp {
    fn put(&self, to: &mut Answer) {
        let (case, relation) = match *self {
            HoldUp::Enabled => (0u8, 0),
            HoldUp::Excluded => (1, 0),
            HoldUp::Blocked(relation) => (2, relation),
            HoldUp::EnabledUnless(relation) => (3, relation),
        };
        case.put(to);
        relation.put(to);
    }
}

impl Told for Guarded {
    fn put(&self, to: &mut Answer) {
        to.bytes(&self.caused);
        self.count.put(to);
        self.marking.put(to);
    }
}

impl Told for Slept {
    fn put(&self, to: &mut Answer) {
        self.count.put(to);
        self.marking.put(to);
    }
}
