// The reasons of the static check, over the words of table and marking.
ghost use Rattle.std.specs.Prelude.{◌≡◌, Bool, List, ℕ, ◌<◌, ◌≤◌, ◌^◌};
ghost use Rattle.rules.specs.declared.Record.{Record};
ghost use Rattle.rules.specs.declared.Marking.{Marking};
ghost use Rattle.rules.specs.declared.Table.{Table as Tabled};
ghost use Rattle.rules.specs.CheckAnswer.{Accepts};
ghost use Rattle.rules.specs.Counting.{lowest};
ghost use Rattle.rules.specs.EventSet.{has, set_of};
ghost use Rattle.rules.specs.Results.{reason_number, as_verdict};
ghost use Rattle.rules.specs.Check.{unreportable, reason as reasonOf, verdict};
ghost use Rattle.rules.specs.Shapes.Good.{GoodTable};
ghost use Rattle.acts.specs.Words.{RowsOf, StandFor};
ghost use Rattle.duties.specs.Inhibition.{held_in, FollowingOf};
ghost use Rattle.duties.specs.Reasons.{Led, Ends, matters, applies, first_reason, rejection_by, verdict_by, verdict_of};

use crate::following::Following;
use crate::{chosen, inhibition};
use acts::events::Events;
use acts::marking_words::MarkingWords;
use acts::table_words::Rows;
use acts::{derived, event_set, laid};
use rules::{Reason, Rejection, Relation, Table};

// The relations that a reason can lie with, which are still to be looked for: of which kinds, from which events and to which.
#[derive(Clone, Copy)]
pub struct Sought {
    pub kinds: u64,
    pub lefts: u64,
    pub rights: u64,
}

// A reason that the words tell of: it lies with an event, its place, or with a relation.
#[derive(Clone, Copy)]
pub enum Finding {
    Event(Reason, usize),
    Relation(Reason, Sought),
}

// The kinds of relation that a reason lies with, each as a set of kinds: kind n is the bit worth 2^n.
const CONDITIONS: u64 = 2;

const RESPONSES: u64 = 4;

const INCLUSIONS: u64 = 8;

// A condition can be a reason if it has a time, an inclusion if it is of another event.
fn matters(k: &Relation) -> bool
    ensures { result ≡ matters k.now }
{
    match k.kind {
        1 => 0 < k.time,
        3 => k.left != k.right,
        _ => true,
    }
}

impl Sought {
    // A relation of one of the kinds, from one of the left events to one of the right. The kinds are a set although each reason has one: where a
    // relation's kind is compared with one, the compiler makes a loop for each kind of the function that looks for it.
    fn applies(&self, k: &Relation) -> bool
        requires { (k.now.kind < 64) × (k.now.left < 64) × (k.now.right < 64) }
        ensures { result ≡ applies self.now.kinds self.now.lefts self.now.rights k.now }
    {
        event_set::has_event(self.kinds, k.kind as usize)
            && event_set::has_event(self.lefts, k.left as usize)
            && event_set::has_event(self.rights, k.right as usize)
            && matters(k)
    }

    // The lowest relation with which the reason lies; the count where there is none.
    fn first(&self, t: &Table) -> usize
        requires { GoodTable t.now }
        ensures { result ≡ first_reason t.now self.now.kinds self.now.lefts self.now.rights }
    {
        t.relations[..t.count]
            .iter()
            .position(|k| self.applies(k))
            .unwrap_or(t.count)
    }
}

impl Finding {
    // The relation is looked for.
    fn rejection(self, t: &Table) -> Rejection
        requires { GoodTable t.now }
        ensures { result ≡ rejection_by t.now self }
    {
        match self {
            Finding::Event(reason, place) => Rejection { reason, place },
            Finding::Relation(reason, sought) => Rejection {
                reason,
                place: sought.first(t),
            },
        }
    }
}

// The reason, at the lowest event of a set, if it has any.
fn with_event(reason: Reason, set: u64) -> Result<(), Finding>
    ensures { (t : Tabled) (n : ℕ) (f : ℕ → Bool) → set ≡ set_of n f
        → verdict_by t result ≡ reasonOf (reason_number reason) n f Accepts }
{
    match Events::of(set).next() {
        Some(e) => Err(Finding::Event(reason, e)),
        None => Ok(()),
    }
}

// The reason, with the relations sought, if there is any: if there is an event that they lead to.
fn with_relation(reason: Reason, ends: u64, sought: Sought) -> Result<(), Finding>
    ensures { (t : Tabled) (f : ℕ → Bool) → GoodTable t → Ends t f ends
        → first_reason t sought.kinds sought.lefts sought.rights ≡ lowest t.count f
        → verdict_by t result ≡ reasonOf (reason_number reason) t.count f Accepts }
{
    if ends != 0 {
        return Err(Finding::Relation(reason, sought));
    }
    Ok(())
}

// The events that the relations of one sort lead to from the events of a set.
fn led_to(rows: &Rows, sort: usize, set: u64) -> u64
    requires { sort < 8 }
    ensures { Led rows.now.words sort set result }
{
    let mut found = 0;
    for e in Events::of(set) {
        found |= rows.words[derived::WIDTH * e + sort];
    }
    found
}

// The events of a set that have an inhibitor.
fn held(rows: &Rows, set: u64) -> u64
    ensures { (x : ℕ) → has result x ≡ held_in rows.now.words set x }
{
    chosen::chosen(set, |e| inhibition::inhibitors(rows, e) != 0)
}

// The events of reason 1.
fn unreportable(rows: &Rows, marking: &MarkingWords) -> u64
    ensures { (t : Tabled) (tail : List Record) (m : Marking) → RowsOf t rows.now → StandFor t.events tail marking.now m
        → result ≡ set_of t.events (unreportable t m) }
{
    let every = event_set::first(rows.head.events);
    let uncontrollable = event_set::without(every, rows.head.controllable);
    let excluded = event_set::without(every, marking.sets[laid::INCLUDED]);
    let barred = led_to(rows, derived::EXCLUSION, every);
    ((excluded | barred) & uncontrollable) | held(rows, uncontrollable)
}

// Reasons 2 to 6, the first that applies.
fn found_of(rows: &Rows, following: &Following, closed: u64) -> Result<(), Finding>
    ensures { (t : Tabled) → RowsOf t rows.now → FollowingOf t following.now → closed < 2 ^ t.events → verdict_by t result ≡ verdict_of t closed }
{
    with_event(
        Reason::Uncausable,
        event_set::without(closed, rows.head.causable),
    )?;
    let conditions = Sought {
        kinds: CONDITIONS,
        lefts: closed,
        rights: u64::MAX,
    };
    with_relation(
        Reason::Waiting,
        led_to(rows, derived::TIMED, closed),
        conditions,
    )?;
    if let Some(e) = inhibition::first_cyclic(following, closed) {
        return Err(Finding::Event(Reason::Cyclic, e));
    }
    let answers = led_to(rows, derived::BOUNDED, closed) | led_to(rows, derived::EVENTUAL, closed);
    let milestones = led_to(rows, derived::MILESTONE, closed);
    let responses = Sought {
        kinds: RESPONSES,
        lefts: closed,
        rights: milestones,
    };
    with_relation(Reason::Reopening, answers & milestones, responses)?;
    let inclusions = Sought {
        kinds: INCLUSIONS,
        lefts: closed,
        rights: closed,
    };
    with_relation(
        Reason::Reviving,
        led_to(rows, derived::INCLUSION, closed) & closed,
        inclusions,
    )
}

// What the words of a judged table and marking say of the check. No relation is looked at.
pub fn found(rows: &Rows, marking: &MarkingWords) -> Result<(), Finding>
    ensures { (t : Tabled) (tail : List Record) (m : Marking) → RowsOf t rows.now → StandFor t.events tail marking.now m
        → verdict_by t result ≡ verdict t m }
{
    with_event(Reason::Unreportable, unreportable(rows, marking))?;
    let following = Following::of_rows(rows);
    let closed = following.closure(marking, rows.head.events);
    found_of(rows, &following, closed)
}

// The verdict: a relation is looked for only where the words say that there is one.
pub fn verdict(t: &Table, found: Result<(), Finding>) -> Result<(), Rejection>
    requires { GoodTable t.now }
    ensures { as_verdict result ≡ verdict_by t.now found }
{
    found.map_err(|finding| finding.rejection(t))
}
