// Whether an event is enabled, for one that is about to act: by the row of the event, and a walk over its conditions with a time.
ghost use Rattle.std.specs.Prelude.{◌≡◌, List, ℕ, ◌<◌, ◌+◌, get_or};
ghost use Rattle.rules.specs.declared.Record.{Record as Kept};
ghost use Rattle.rules.specs.declared.Marking.{Marking as Marked};
ghost use Rattle.rules.specs.declared.Table.{Table as Tabled};
ghost use Rattle.rules.specs.Counting.{some};
ghost use Rattle.rules.specs.Enabled.{is_enabled};
ghost use Rattle.acts.specs.Acting.{held_back, young_by, waits_for};
ghost use Rattle.acts.specs.Words.{RowOf, StandFor};

use crate::links::{Link, Links};
use crate::marking_words::MarkingWords;
use crate::table_words::Row;
use crate::{derived, event_set, laid};

impl<'a> Row<'a> {
    // The word of a sort of relations.
    pub fn word(&self, sort: usize) -> u64
        requires { sort < 10 }
        ensures { result ≡ get_or self.now.words.now (self.now.at + sort) 0 }
    {
        let words = self.words;
        words[self.at + sort]
    }

    // The links of the chain that begins there.
    pub fn chain(&self, begins: usize) -> Links<'a>
        requires { begins < 10 }
        ensures links { result.links ≡ self.now.links }
        ensures next { result.next ≡ get_or self.now.words.now (self.now.at + begins) 0 }
    {
        let links = self.links;
        Links {
            links,
            next: self.word(begins),
        }
    }
}

impl MarkingWords {
    // The right event of a link is included, and its age is below the link's time.
    fn is_young(&self, link: Link) -> bool
        requires { link.right < 64 }
        ensures { result ≡ young_by self.now.clock (get_or self.now.sets 1 0) self.now.columns link.right link.time }
    {
        event_set::has_event(self.sets[laid::INCLUDED], link.right)
            && self.age_at(link.right) < link.time
    }

    // Some condition of the event is not old enough.
    fn waits(&self, row: Row<'_>) -> bool
        ensures { (t : Tabled) (e : ℕ) → RowOf t e row.entry
            → result ≡ some t.count (waits_for t e self.now.clock (get_or self.now.sets 1 0) self.now.columns) }
    {
        for link in row.chain(derived::WAITS) {
            if self.is_young(link) {
                return true;
            }
        }
        false
    }

    // Some inhibitor of the event is missing, or pending.
    fn holds_back(&self, row: Row<'_>) -> bool
        ensures { result ≡ held_back row.entry.words.now row.entry.at self.now.sets }
    {
        let included = self.sets[laid::INCLUDED];
        let missing = event_set::without(included, self.sets[laid::HAPPENED]);
        let pending = included & self.sets[laid::PENDING];
        let conditions = row.word(derived::CONDITION) | row.word(derived::TIMED);
        (conditions & missing) | (row.word(derived::MILESTONE) & pending) != 0
    }

    // The event, whose row is handed in, is enabled. It is put into its callers: a row that is handed on in memory keeps the words of its table
    // from being made where they stay.
    #[inline(always)]
    pub fn may_act(&self, row: Row<'_>, e: usize) -> bool
        requires { e < 64 }
        ensures { (t : Tabled) (tail : List Kept) (m : Marked) → RowOf t e row.entry → e < t.events
            → StandFor t.events tail self.now m → result ≡ is_enabled t m e }
    {
        let included = self.sets[laid::INCLUDED];
        event_set::has_event(included, e)
            && !self.holds_back(row)
            && (row.word(derived::TIMED) & included == 0 || !self.waits(row))
    }
}
