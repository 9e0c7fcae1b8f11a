// The scan for the first relation that blocks an event, or would if its right event were included: one scan, told which.
ghost use Rattle.std.specs.Prelude.{◌≡◌, ◌≤◌, ◌&&◌, ◌||◌, not, leb};
ghost use Rattle.rules.specs.Counting.{lowest};
ghost use Rattle.rules.specs.Holds.{is_condition, is_milestone};
ghost use Rattle.rules.specs.Enabled.{stops};
ghost use Rattle.rules.specs.Shapes.Good.{Good};
ghost use Rattle.acts.specs.Blocking.{as_if, blocks_as, FoundLowest};

use rules::{Marking, Record, Relation, Table};

// What a relation asks of its right event, of which r is the record, is not there.
fn lacks(k: Relation, r: Record) -> bool
    ensures { result ≡ (is_condition k && not (r.happened && leb k.time r.age) || is_milestone k && r.pending) }
{
    match k.kind {
        1 => !r.happened || r.age < k.time,
        5 => r.pending,
        _ => false,
    }
}

// A relation stops its left event, where r is the record of its right event, or would if that had returned.
pub fn stops(k: Relation, r: Record, returned: bool) -> bool
    ensures { result ≡ stops k (as_if returned r) }
{
    (returned || r.included) && lacks(k, r)
}

// The lowest relation that blocks e, or would; it is known that none does before `from`.
pub fn first_blocking(
    t: &Table,
    m: &Marking,
    e: usize,
    from: usize,
    returned: bool,
) -> Option<usize>
    requires good { Good t.now m.now }
    requires from_le_count { (from ≤ t.now.count) × (lowest from (blocks_as returned t.now m.now e) ≡ from) }
    ensures { FoundLowest t.now.count (blocks_as returned t.now m.now e) result }
{
    for i in from..t.count {
        let k = t.relations[i];
        if k.left as usize == e && stops(k, m.records[k.right as usize], returned) {
            return Some(i);
        }
    }
    None
}
