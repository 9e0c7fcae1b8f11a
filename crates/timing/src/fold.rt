// What is taken into the sum of each answer.
use rules::{
    CheckError, Closure, Guarded, HoldUp, Margin, Marking, Record, Refusal, Rejection, Relation,
    Slept, Table,
};

// The sum with one number more.
pub fn taken(sum: u64, x: u64) -> u64 {
    (sum % 4_294_967_296) * 31 + x % 4_294_967_296
}

// A number below n that the sum decides, 0 for none.
pub fn below(n: usize, sum: u64) -> usize {
    (sum % 65_536) as usize % n.max(1)
}

// What a call answers: the sum with a part of it taken in.
pub trait Fold {
    fn fold(&self, sum: u64) -> u64;
}

impl Fold for () {
    fn fold(&self, sum: u64) -> u64 {
        sum
    }
}

impl Fold for bool {
    fn fold(&self, sum: u64) -> u64 {
        taken(sum, *self as u64)
    }
}

impl Fold for u8 {
    fn fold(&self, sum: u64) -> u64 {
        taken(sum, *self as u64)
    }
}

impl Fold for u64 {
    fn fold(&self, sum: u64) -> u64 {
        taken(sum, *self)
    }
}

impl Fold for usize {
    fn fold(&self, sum: u64) -> u64 {
        taken(sum, *self as u64)
    }
}

impl Fold for Closure {
    fn fold(&self, sum: u64) -> u64 {
        taken(taken(sum, self.set), self.size as u64)
    }
}

impl Fold for Relation {
    fn fold(&self, sum: u64) -> u64 {
        let ends = taken(self.left as u64, self.right as u64);
        taken(sum, taken(taken(self.kind as u64, self.time as u64), ends))
    }
}

impl Fold for Table {
    fn fold(&self, sum: u64) -> u64 {
        self.relations[1].fold(taken(sum, self.controllable))
    }
}

// The count stands above the bits of a sum that decide what a call is handed, so the calls are those of a record without one.
impl Fold for Record {
    fn fold(&self, sum: u64) -> u64 {
        let times = taken(self.age as u64, self.deadline as u64);
        let past = taken(self.happened as u64, self.included as u64);
        let duty = taken(self.pending as u64, self.bounded as u64);
        let rest = taken(times, taken(past, duty));
        taken(
            sum,
            rest % 4_294_967_296 + self.count as u64 % 65_536 * 65_536,
        )
    }
}

impl Fold for Marking {
    fn fold(&self, sum: u64) -> u64 {
        self.records[1].fold(sum)
    }
}

// How many events are caused, and the marking.
impl Fold for (usize, &Marking) {
    fn fold(&self, sum: u64) -> u64 {
        self.1.fold(taken(sum, self.0 as u64))
    }
}

impl Fold for Guarded {
    fn fold(&self, sum: u64) -> u64 {
        (self.count, &self.marking).fold(sum)
    }
}

impl Fold for Slept {
    fn fold(&self, sum: u64) -> u64 {
        (self.count, &self.marking).fold(sum)
    }
}

// A refusal has a number.
pub trait Refused {
    fn number(&self) -> u8;
}

impl Refused for Refusal {
    fn number(&self) -> u8 {
        u8::from(*self)
    }
}

impl Refused for CheckError {
    fn number(&self) -> u8 {
        match *self {
            CheckError::Refused(refusal) => u8::from(refusal),
            CheckError::Rejected(_) => u8::from(Refusal::Rejected),
        }
    }
}

// The number, and what is answered; in a refusal what stands for it.
pub fn outcome<T, R, E>(sum: u64, answer: &Result<T, E>, refused: &R) -> u64
where
    T: Fold,
    R: Fold,
    E: Refused,
{
    match answer {
        Ok(told) => told.fold(taken(sum, 0)),
        Err(error) => refused.fold(taken(sum, error.number() as u64)),
    }
}

// Here the number stands for what is answered.
impl Fold for Result<Margin, Refusal> {
    fn fold(&self, sum: u64) -> u64 {
        let word = match *self {
            Err(refusal) => u8::from(refusal) as u64,
            Ok(Margin::NotACondition) => 16,
            Ok(Margin::Ignored(None)) => 17,
            Ok(Margin::Counts(None)) => 18,
            Ok(Margin::Counts(Some(ticks))) if ticks < 0 => 19,
            Ok(Margin::Counts(Some(_))) => 20,
            Ok(Margin::Ignored(Some(ticks))) if ticks < 0 => 21,
            Ok(Margin::Ignored(Some(_))) => 22,
        };
        taken(sum, word)
    }
}

impl Fold for Result<HoldUp, Refusal> {
    fn fold(&self, sum: u64) -> u64 {
        let word = match *self {
            Err(refusal) => u8::from(refusal) as u64,
            Ok(HoldUp::Enabled) => 16,
            Ok(HoldUp::Excluded) => 17,
            Ok(HoldUp::Blocked(relation)) => taken(18, relation as u64),
            Ok(HoldUp::EnabledUnless(relation)) => taken(19, relation as u64),
        };
        taken(sum, word)
    }
}

impl Fold for Result<(), CheckError> {
    fn fold(&self, sum: u64) -> u64 {
        let word = match *self {
            Ok(()) => 16,
            Err(CheckError::Refused(refusal)) => u8::from(refusal) as u64,
            Err(CheckError::Rejected(Rejection { reason, place })) => {
                taken(17 + u8::from(reason) as u64, place as u64)
            }
        };
        taken(sum, word)
    }
}

// The last place that is written; where none is, the first.
pub fn last_place<T: Copy + Into<u64>>(list: &[T], count: usize) -> u64 {
    let last = list.get(count.saturating_sub(1));
    last.map_or(0, |place| (*place).into())
}
