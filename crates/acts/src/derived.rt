// The table as words, made in one pass over its relations: ten words for each event, its row, and a link for each relation that is in a chain.
// A row has for each sort of relation the events that the event's relations of that sort lead to, and where two chains of links begin: that
// of its bounded responses and that of its conditions with a time. The row of event e stands from 10 e on; 0 begins no chain, else it is a
// relation's number and 1 more. A link has the one before it in its chain, and the right event and the time of its relation.
ghost use Rattle.std.specs.Prelude.{◌≡◌, ℕ, ◌<◌, ◌≤◌, ◌+◌, ◌*◌, length, replicate};
ghost use Rattle.std.specs.Option.{MatchOption};
ghost use Rattle.rules.specs.declared.Table.{Table as Tabled};
ghost use Rattle.rules.specs.Shapes.Good.{GoodTable};
ghost use Rattle.acts.specs.Derived.{head_of, sort_of, chain_of, link_of, row_noted, links_noted, rows_begun, rows_noted, Own, Unlinked};
ghost use Rattle.acts.specs.Words.{RowsOf, WordsOf, RowOf};

use crate::event_set;
use crate::table_words::{OwnRow, Row, Rows, TableWords};
use rules::{Relation, Table};

// How many words a row has.
pub const WIDTH: usize = 10;

pub const CONDITION: usize = 0;

pub const TIMED: usize = 1;

pub const MILESTONE: usize = 2;

pub const BOUNDED: usize = 3;

pub const EVENTUAL: usize = 4;

pub const INCLUSION: usize = 5;

pub const EXCLUSION: usize = 6;

pub const ITSELF: usize = 7;

// Where the bounded responses begin, and the conditions with a time.
pub const RESPONSES: usize = 8;

pub const WAITS: usize = 9;

// What a table says besides its relations. `firm` is a set too: the events whose dates no response moves out, which are all of a firm table, and
// else none.
#[derive(Clone, Copy)]
pub struct Head {
    pub controllable: u64,
    pub causable: u64,
    pub events: usize,
    pub firm: u64,
}

impl Head {
    pub fn of(t: &Table) -> Head
        ensures { result ≡ head_of t.now }
    {
        let firm = if t.firm { 0xffff_ffff_ffff_ffff } else { 0 };
        Head {
            controllable: t.controllable,
            causable: t.causable,
            events: t.events,
            firm,
        }
    }
}

// The sort of a relation: conditions by whether they have a time, responses by whether they are bounded, inclusions by whether they are of
// another event.
#[tactic(auto, unfolding(crate::specs::Derived::sort_of))]
fn sort(k: Relation) -> usize
    ensures value { result ≡ sort_of k }
    ensures few { result < 8 }
{
    match k.kind {
        1 if 0 < k.time => TIMED,
        1 => CONDITION,
        5 => MILESTONE,
        2 if k.bounded => BOUNDED,
        2 => EVENTUAL,
        3 if k.left == k.right => ITSELF,
        3 => INCLUSION,
        _ => EXCLUSION,
    }
}

// Where a row has the chain of a sort, if relations of that sort are in one.
#[tactic(auto, unfolding(crate::specs::Derived::chain_of))]
fn chain(sort: usize) -> Option<usize>
    ensures { MatchOption result (chain_of sort ≡ 10) (λ begins. (begins ≡ chain_of sort) × (begins < 10)) }
{
    match sort {
        BOUNDED => Some(RESPONSES),
        TIMED => Some(WAITS),
        _ => None,
    }
}

// The link of a relation that is in a chain, with the one before it.
fn link(before: u64, k: Relation) -> u64
    requires { (before < 512) × (k.right < 64) × (k.time < 1073741824) }
    ensures { result ≡ link_of before k }
{
    before + 512 * k.right as u64 + 32_768 * k.time as u64
}

// Relation number i is linked if it is in a chain, which then begins with it.
#[tactic(auto, unfolding(crate::specs::Derived::links_noted))]
fn begin(rows: &mut [u64], at: usize, links: &mut [u64; 256], i: usize, k: Relation)
    requires at_in_bounds { (at + 10 ≤ length rows.old) × (i < 256) }
    requires right_bound { (k.right < 64) × (k.time < 1073741824) }
    ensures rows_after { rows.new ≡ rows_begun rows.old at i k }
    ensures links_after { links.new ≡ links_noted links.old rows.old at i k }
{
    if let Some(begins) = chain(sort(k)) {
        let first = at + begins;
        links[i] = link(rows[first] % 512, k);
        rows[first] = i as u64 + 1;
    }
}

// One relation more, number i: it is noted in the row of its left event, which stands from `at` on, and linked if it is in a chain. Its word is
// read last, where it is stored: so small, the compiler puts this pass into each call that makes it.
fn note(rows: &mut [u64], at: usize, links: &mut [u64; 256], i: usize, k: Relation)
    requires at_in_bounds { (at + 10 ≤ length rows.old) × (i < 256) }
    requires right_bound { (k.right < 64) × (k.time < 1073741824) }
    ensures rows_after { rows.new ≡ rows_noted rows.old at i k }
    ensures links_after { links.new ≡ links_noted links.old rows.old at i k }
{
    begin(rows, at, links, i, k);
    let place = at + sort(k);
    rows[place] = event_set::adding(rows[place], k.right as usize);
}

impl Rows {
    // One relation more is noted in the row of its left event.
    fn note(&mut self, k: Relation)
        requires { (k.left < 64) × (k.right < 64) }
        ensures words { self.new.words ≡ row_noted self.old.words (10 * k.left) k }
        ensures head { self.new.head ≡ self.old.head }
    {
        let place = WIDTH * k.left as usize + sort(k);
        self.words[place] = event_set::adding(self.words[place], k.right as usize);
    }

    // All relations are, in rows that have none yet.
    fn fill(&mut self, t: &Table)
        requires good { GoodTable t.now }
        requires blank { (self.old.words ≡ replicate 640 0) × (self.old.head ≡ head_of t.now) }
        ensures rows { RowsOf t.now self.new }
        ensures unlinked { Unlinked self.new.words }
    {
        for i in 0..t.count {
            self.note(t.relations[i]);
        }
    }

    // The rows alone, for the check: it walks no chain, and needs no room for links. It is put into its callers, which copy no rows then.
    #[inline(always)]
    pub fn of(t: &Table) -> Rows
        requires { GoodTable t.now }
        ensures rows { RowsOf t.now result }
        ensures unlinked { Unlinked result.words }
    {
        let mut rows = Rows {
            words: [0; 640],
            head: Head::of(t),
        };
        rows.fill(t);
        rows
    }
}

impl TableWords {
    // All relations are noted, in words that have none yet.
    fn fill(&mut self, t: &Table)
        requires good { GoodTable t.now }
        requires blank { (self.old.rows.words ≡ replicate 640 0) × (length self.old.links ≡ 256) × (self.old.rows.head ≡ head_of t.now) }
        ensures { WordsOf t.now self.new }
    {
        for i in 0..t.count {
            let k = t.relations[i];
            let at = WIDTH * k.left as usize;
            note(&mut self.rows.words, at, &mut self.links, i, k);
        }
    }

    // It is put into its callers, which copy no words then.
    #[inline(always)]
    pub fn of(t: &Table) -> TableWords
        requires { GoodTable t.now }
        ensures { WordsOf t.now result }
    {
        let mut table = TableWords {
            rows: Rows {
                words: [0; 640],
                head: Head::of(t),
            },
            links: [0; 256],
        };
        table.fill(t);
        table
    }

    pub fn row(&self, e: usize) -> Row<'_>
        requires { e < 64 }
        ensures { (t : Tabled) → WordsOf t self.now → RowOf t e result }
    {
        Row {
            words: &self.rows.words,
            at: WIDTH * e,
            links: &self.links,
        }
    }
}

impl OwnRow {
    // Its relations are noted, in words that have none yet.
    fn fill(&mut self, t: &Table, e: usize)
        requires good { GoodTable t.now }
        requires blank { (self.old.words ≡ replicate 10 0) × (length self.old.links ≡ 256) }
        ensures { Own t.now t.now.count e self.new.words 0 self.new.links }
    {
        for i in 0..t.count {
            let k = t.relations[i];
            if k.left as usize == e {
                note(&mut self.words, 0, &mut self.links, i, k);
            }
        }
    }

    // The row of one event alone, and the links of its relations. It is put into its callers, which copy no words then.
    #[inline(always)]
    pub fn of(t: &Table, e: usize) -> OwnRow
        requires { GoodTable t.now }
        ensures { Own t.now t.now.count e result.words 0 result.links }
    {
        let mut own = OwnRow {
            words: [0; 10],
            links: [0; 256],
        };
        own.fill(t, e);
        own
    }

    pub fn row(&self) -> Row<'_>
        ensures { (t : Tabled) (e : ℕ) → GoodTable t → Own t t.count e self.now.words 0 self.now.links → RowOf t e result }
    {
        Row {
            words: &self.words,
            at: 0,
            links: &self.links,
        }
    }
}
