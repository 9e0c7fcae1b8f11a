// The loops. A loop of calls is not worked out beforehand: each call is handed something that the answers before it decide.
use rules::{Marking, Record, Relation, Table};

// What stands for a table that the reader refuses. A constant: a `static` the borrow checker does not cover.
pub const NO_TABLE: Table = Table {
    relations: [Relation::EMPTY; Table::MOST_RELATIONS],
    controllable: 0,
    causable: 0,
    events: 0,
    count: 0,
    firm: false,
};

#[inline(always)]
pub fn table(bytes: &[u8]) -> Table {
    image::read_table(bytes).unwrap_or_else(|_| NO_TABLE)
}

#[inline(always)]
pub fn marking(events: usize, bytes: &[u8]) -> Marking {
    image::read_marking(events, bytes).unwrap_or_else(|_| Marking::empty())
}

// The record of event 0 as it was at first, but for its age, which the sum decides.
fn stirred(first: Record, sum: u64) -> Record {
    Record {
        age: (sum % 1024) as u32,
        ..first
    }
}

// So many calls, each handed the sum of those before.
#[inline(always)]
pub fn sums<F: FnMut(u64) -> u64>(times: usize, mut call: F) -> u64
    requires { F.IsAlwaysCallable call }
{
    let mut sum = 1;
    for _ in 0..times {
        sum = call(sum);
    }
    sum
}

// So many calls of one thing and a marking. Before each, event 0 is set back. By `sums`, with a closure around `call`, this is not proved.
#[inline(always)]
pub fn turns<T, F>(given: &T, m: &mut Marking, times: usize, mut call: F) -> u64
where
    F: FnMut(&T, &mut Marking, u64) -> u64,
    requires { F.IsAlwaysCallable call }
{
    let first = m.records[0];
    let mut sum = 1;
    for _ in 0..times {
        m.records[0] = stirred(first, sum);
        sum = call(given, m, sum);
    }
    sum
}

// The thing is the table that is read, and the marking is read for it.
#[inline(always)]
pub fn of_both<F>(table: &[u8], marking: &[u8], times: usize, call: F) -> u64
where
    F: FnMut(&Table, &mut Marking, u64) -> u64,
    requires { F.IsAlwaysCallable call }
{
    let t = self::table(table);
    turns(&t, &mut self::marking(t.events, marking), times, call)
}
