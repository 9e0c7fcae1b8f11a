// The margin of a condition.
ghost use Rattle.std.specs.Prelude.{◌≡◌, ◌≤◌, pos, ◌-ℤ◌};
ghost use Rattle.rules.specs.Holds.{limit};
ghost use Rattle.rules.specs.Results.{as_rest, as_margin_of};
ghost use Rattle.rules.specs.Margin.{rest_of, margin_of};

use rules::{Margin, Record, Relation};

// Age minus time.
fn minus(age: u32, time: u32) -> i32
    requires { (age ≤ limit) × (time ≤ limit) }
    ensures { result ≡ pos age -ℤ pos time }
{
    age as i32 - time as i32
}

// Of a condition, where r is the record of its right event, as if that were included.
fn rest_of(k: Relation, r: Record) -> Option<i32>
    requires { (r.age ≤ limit) × (k.time ≤ limit) }
    ensures { as_rest result ≡ rest_of k r }
{
    if r.happened {
        Some(minus(r.age, k.time))
    } else {
        None
    }
}

// Of a relation, where r is the record of its right event.
pub fn margin_of(k: Relation, r: Record) -> Margin
    requires { (r.age ≤ limit) × (k.time ≤ limit) }
    ensures { as_margin_of result ≡ margin_of k r }
{
    if k.kind != 1 {
        return Margin::NotACondition;
    }
    let rest = rest_of(k, r);
    if r.included {
        Margin::Counts(rest)
    } else {
        Margin::Ignored(rest)
    }
}
