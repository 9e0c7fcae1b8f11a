// Judging decoded values, one record and one relation at a time.
ghost use Rattle.std.specs.Prelude.{◌≡◌, cond, not, ◌&&◌, ◌≤◌};
ghost use Rattle.rules.specs.Numbers.{◌if◌, first_of};
ghost use Rattle.rules.specs.Holds.{limit, count_limit, most_events, most_relations, relation_of, record_of};
ghost use Rattle.rules.specs.Judge.{events_fit, relations_fit, time_fits, relation_number, state_fits, count_fits_lem, record_fits, record_number, marking_number};
ghost use Rattle.rules.specs.Results.{number_of};

use rules::{Marking, Record, Refusal, Relation, Table};

// 1 event or more, and no more than the most.
fn events_fit(n: usize) -> bool
    ensures { result ≡ events_fit n }
{
    (1..=Table::MOST_EVENTS).contains(&n)
}

// How many events a marking is for: 3.
pub fn events(n: usize) -> Result<(), Refusal>
    ensures { number_of result ≡ (3 if not (events_fit n)) }
{
    if events_fit(n) {
        Ok(())
    } else {
        Err(Refusal::Counts)
    }
}

// How many events and relations a table has: 3.
pub fn counts(events: usize, relations: usize) -> Result<(), Refusal>
    ensures { number_of result ≡ (3 if not (events_fit events && relations_fit relations)) }
{
    if events_fit(events) && relations <= Table::MOST_RELATIONS {
        Ok(())
    } else {
        Err(Refusal::Counts)
    }
}

// Bounded and time fit the kind.
#[tactic(auto, unfolding(rules::specs::Judge::time_fits))]
fn time_fits(k: &Relation) -> bool
    ensures { result ≡ time_fits k.now }
{
    match (k.kind, k.bounded) {
        (1, bounded) => bounded && k.time <= Marking::AGE_LIMIT,
        (2, true) => (1..=Marking::AGE_LIMIT).contains(&k.time),
        (_, bounded) => !bounded && k.time == 0,
    }
}

// A relation of a table with so many events: 4, 5, 6.
#[tactic(auto, unfolding(rules::specs::Judge::relation_number))]
pub fn relation(events: usize, k: &Relation) -> Result<(), Refusal>
    ensures { number_of result ≡ relation_number events k.now }
{
    if !(1..=5).contains(&k.kind) {
        return Err(Refusal::Kind);
    }
    if events <= k.left as usize || events <= k.right as usize {
        return Err(Refusal::Ends);
    }
    if !time_fits(k) {
        return Err(Refusal::Time);
    }
    Ok(())
}

// The relations of a table, in order.
pub fn relations(t: &Table) -> Result<(), Refusal>
    requires { t.now.count ≤ most_relations }
    ensures { number_of result ≡ first_of t.now.count (λ k. relation_number t.now.events (relation_of t.now k)) }
{
    for k in &t.relations[..t.count] {
        relation(t.events, k)?;
    }
    Ok(())
}

// The most that an age or a deadline may be, by whether there is one. The constant is the definitions' limit.
fn limit_if(there: bool) -> u32
    ensures most { result ≡ cond there limit 0 }
    ensures constant { Marking.AGE_LIMIT ≡ limit }
{
    if there { Marking::AGE_LIMIT } else { 0 }
}

// Age, bounded and deadline keep the rules of a record.
#[tactic(auto, unfolding(rules::specs::Judge::state_fits))]
fn state_fits(r: &Record) -> bool
    ensures { result ≡ state_fits r.now }
{
    r.age <= limit_if(r.happened) && (r.pending || !r.bounded) && r.deadline <= limit_if(r.bounded)
}

// The count agrees with whether the event has happened. No number of its type is above its limit.
#[tactic(auto, unfolding(rules::specs::Judge::count_fits_lem))]
fn count_fits(r: &Record) -> bool
    ensures fits { result ≡ count_fits_lem r.now }
    ensures constant { Marking.COUNT_LIMIT ≡ count_limit }
{
    r.happened == (1 <= r.count)
}

// A record: 7.
#[tactic(auto, unfolding(rules::specs::Judge::record_fits))]
pub fn record(r: &Record) -> Result<(), Refusal>
    ensures { number_of result ≡ record_number r.now }
{
    if state_fits(r) && count_fits(r) {
        Ok(())
    } else {
        Err(Refusal::Record)
    }
}

// The records of a marking, in order.
fn records(m: &Marking) -> Result<(), Refusal>
    requires { m.now.events ≤ most_events }
    ensures { number_of result ≡ first_of m.now.events (λ e. record_number (record_of m.now e)) }
{
    for r in &m.records[..m.events] {
        record(r)?;
    }
    Ok(())
}

// A marking by itself: 3, 7.
#[tactic(auto, unfolding(rules::specs::Judge::marking_number))]
pub fn marking(m: &Marking) -> Result<(), Refusal>
    ensures { number_of result ≡ marking_number m.now }
{
    events(m.events)?;
    records(m)
}
