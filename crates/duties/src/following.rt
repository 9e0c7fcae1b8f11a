// The inhibitors that are followed, by the closure, by the needed set and by the order of taking: of one event; as words, one for each event,
// made of the rows or of the relations themselves; what a set reaches by such words; and so the closure.
ghost use Rattle.std.specs.Prelude.{◌≡◌, List, ℕ, ◌<◌, ◌≤◌};
ghost use Rattle.rules.specs.declared.Record.{Record};
ghost use Rattle.rules.specs.declared.Marking.{Marking};
ghost use Rattle.rules.specs.declared.Table.{Table as Tabled};
ghost use Rattle.rules.specs.Closure.{followed as isFollowed, closure as closureOf};
ghost use Rattle.rules.specs.Shapes.Good.{GoodTable};
ghost use Rattle.acts.specs.Words.{RowsOf, StandFor};
ghost use Rattle.duties.specs.Inhibition.{followed_in, word_of, words_noted, answers_noted, Reached, FollowingOf, is_answer};

use acts::events::Events;
use acts::marking_words::MarkingWords;
use acts::table_words::Rows;
use acts::{derived, event_set, laid};
use rules::{Relation, Table};

// The inhibitors of e that are followed: the right events of its conditions, if in the one set, and of its milestones, if in the other.
pub fn followed(rows: &Rows, conditions: u64, milestones: u64, e: usize) -> u64
    requires { e < 64 }
    ensures { result ≡ followed_in rows.now.words conditions milestones e }
{
    let at = derived::WIDTH * e;
    let waits = rows.words[at + derived::CONDITION] | rows.words[at + derived::TIMED];
    let awaits = rows.words[at + derived::MILESTONE];
    (waits & conditions) | (awaits & milestones)
}

// A relation is followed to its right event: a condition, or a milestone.
fn is_followed(k: &Relation) -> bool
    ensures { result ≡ isFollowed k.now }
{
    matches!(k.kind, 1 | 5)
}

// The right event of a bounded response answers.
fn answers(k: &Relation) -> bool
    ensures { result ≡ is_answer k.now }
{
    k.kind == 2 && k.bounded
}

// A set and, repeatedly, the events that each of its events leads to: each is opened once, so what it leads to is asked once.
pub fn reached<F: Fn(usize) -> u64>(leads: F, set: u64) -> u64
    requires { (e : ℕ) → e < 64 → F.pre leads e }
    ensures { (word : ℕ → ℕ) → ((e w : ℕ) → e < 64 → F.post leads e w → w ≡ word e) → Reached word set result }
{
    let mut found = set;
    let mut unopened = Events::of(set);
    while let Some(e) = unopened.next() {
        let more = event_set::without(leads(e), found);
        found |= more;
        unopened.left |= more;
    }
    found
}

// What is followed, a word for each event; and the events that answer a bounded response.
#[derive(Clone, Copy)]
pub struct Following {
    pub words: [u64; 64],
    pub answers: u64,
}

impl Following {
    const NONE: Following = Following {
        words: [0; 64],
        answers: 0,
    };

    // Of the relations themselves, in one pass.
    pub fn of(t: &Table) -> Following
        requires { GoodTable t.now }
        ensures { FollowingOf t.now result }
    {
        let mut following = Following::NONE;
        for k in &t.relations[..t.count] {
            following.note(k);
        }
        following
    }

    // Of the rows.
    pub fn of_rows(rows: &Rows) -> Following
        ensures { (t : Tabled) → RowsOf t rows.now → FollowingOf t result }
    {
        let mut following = Following::NONE;
        for e in 0..rows.head.events {
            following.words[e] = followed(rows, u64::MAX, u64::MAX, e);
            following.answers |= rows.words[derived::WIDTH * e + derived::BOUNDED];
        }
        following
    }

    // One relation more.
    fn note(&mut self, k: &Relation)
        requires { (k.now.left < 64) × (k.now.right < 64) }
        ensures words { self.new.words ≡ words_noted self.old.words k.now }
        ensures answers { self.new.answers ≡ answers_noted self.old.answers k.now }
    {
        if is_followed(k) {
            let e = k.left as usize;
            self.words[e] = event_set::adding(self.words[e], k.right as usize);
        }
        if answers(k) {
            self.answers = event_set::adding(self.answers, k.right as usize);
        }
    }

    // The set and, repeatedly, the events in the words of its events.
    pub fn reached(&self, set: u64) -> u64
        ensures { Reached (word_of self.now.words) set result }
    {
        reached(|e| self.words[e], set)
    }

    // The busy events and, repeatedly, their inhibitors; of n events. What is owed is busy, and what answers a bounded response.
    pub fn closure(&self, marking: &MarkingWords, n: usize) -> u64
        requires { (0 < n) × (n ≤ 64) }
        ensures { (t : Tabled) (tail : List Record) (m : Marking) → FollowingOf t self.now → t.events ≡ n
            → StandFor n tail marking.now m → result ≡ closureOf t m }
    {
        let owed = marking.sets[laid::PENDING] & marking.sets[laid::BOUNDED] & event_set::first(n);
        self.reached(owed | self.answers)
    }
}
