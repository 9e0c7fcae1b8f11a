// The effect of an event on the words of a marking. The event's row says which events are included, excluded and asked for; a walk over its
// bounded responses gives them their deadlines. No other relation is looked at.
ghost use Rattle.std.specs.Prelude.{◌≡◌, cond, List, ℕ, ◌<◌, ◌≤◌, ◌+◌, min, length};
ghost use Rattle.rules.specs.declared.Record.{Record as Kept};
ghost use Rattle.rules.specs.declared.Marking.{Marking as Marked};
ghost use Rattle.rules.specs.declared.Table.{Table as Tabled};
ghost use Rattle.rules.specs.EventSet.{has};
ghost use Rattle.rules.specs.Holds.{count_limit};
ghost use Rattle.rules.specs.Effect.{effect};
ghost use Rattle.acts.specs.Derived.{firm_set};
ghost use Rattle.acts.specs.Acting.{included_after, pending_after, kept_at, bounded_after, Responded};
ghost use Rattle.acts.specs.Words.{RowOf, StandFor};

use crate::laid::Columns;
use crate::marking_words::MarkingWords;
use crate::table_words::Row;
use crate::{derived, event_set, laid};
use rules::Marking;

// The included events after it; inclusion wins over exclusion.
fn included_after(row: Row<'_>, included: u64) -> u64
    ensures { (x : ℕ) → has result x ≡ included_after row.entry.words.now row.entry.at included x }
{
    let put = row.word(derived::INCLUSION) | row.word(derived::ITSELF);
    event_set::without(included, row.word(derived::EXCLUSION)) | put
}

// The pending events after it, of those that are still pending.
fn pending_after(row: Row<'_>, pending: u64) -> u64
    ensures { (x : ℕ) → has result x ≡ pending_after row.entry.words.now row.entry.at pending x }
{
    pending | (row.word(derived::BOUNDED) | row.word(derived::EVENTUAL))
}

// The events that still have a date and whose dates no response moves out.
fn kept_dates(firm: u64, pending: u64, bounded: u64) -> u64
    ensures { (x : ℕ) → has result x ≡ kept_at firm pending bounded x }
{
    firm & (pending & bounded)
}

// The events with a deadline after it, of those that still have one.
fn bounded_after(row: Row<'_>, bounded: u64, kept: u64) -> u64
    ensures { (x : ℕ) → has result x ≡ bounded_after row.entry.words.now row.entry.at bounded kept x }
{
    let soon = row.word(derived::BOUNDED);
    event_set::without(bounded, soon | row.word(derived::EVENTUAL)) | soon | kept
}

// A count of one execution more, held at its limit.
fn counted(count: u32) -> u32
    ensures { result ≡ min (count + 1) count_limit }
{
    count.saturating_add(1).min(Marking::COUNT_LIMIT)
}

// The earlier of a new date and the old one, if that counts.
fn earlier(counts: bool, until: u32, old: u32) -> u32
    ensures { result ≡ cond counts (min until old) until }
{
    if counts { until.min(old) } else { until }
}

// The deadlines that the event's responses give. An old date counts where it is kept, and where this walk gave it.
fn answered(row: Row<'_>, clock: u32, kept: u64, columns: &mut Columns)
    requires { clock ≤ 2147483648 }
    ensures { (t : Tabled) (e : ℕ) → RowOf t e row.entry → length columns.old ≡ 192 → Responded t e clock kept columns.old columns.new }
{
    let mut dated = kept;
    for link in row.chain(derived::RESPONSES) {
        let x = link.right;
        let until = clock + link.time;
        let place = laid::DEADLINES + x;
        columns[place] = earlier(event_set::has_event(dated, x), until, columns[place]);
        dated = event_set::adding(dated, x);
    }
}

impl MarkingWords {
    // The effect of an event, whose row is handed in; `firm` has every event of a firm table, else none. First e itself is cleared: what it had to
    // do meets no response. All that is read is read before anything is stored: else the compiler reads the row's words twice. It is put into its
    // callers, as `may_act` is.
    #[inline(always)]
    pub fn execute(&mut self, row: Row<'_>, e: usize, firm: u64)
        requires { e < 64 }
        ensures stand { (t : Tabled) (tail : List Kept) (m : Marked) → RowOf t e row.entry → e < t.events → firm ≡ firm_set t.firm
            → StandFor t.events tail self.old m → StandFor t.events tail self.new (effect t m e) }
        ensures clock { self.new.clock ≡ self.old.clock }
    {
        let pending = event_set::without(self.sets[laid::PENDING], 1 << e);
        let bounded = event_set::without(self.sets[laid::BOUNDED], 1 << e);
        let kept = kept_dates(firm, pending, bounded);
        let happened = event_set::adding(self.sets[laid::HAPPENED], e);
        let included = included_after(row, self.sets[laid::INCLUDED]);
        let asked = pending_after(row, pending);
        let dated = bounded_after(row, bounded, kept);
        self.sets[laid::HAPPENED] = happened;
        self.sets[laid::INCLUDED] = included;
        self.sets[laid::PENDING] = asked;
        self.sets[laid::BOUNDED] = dated;
        let place = laid::COUNTS + e;
        self.columns[place] = counted(self.columns[place]);
        self.columns[laid::AGES + e] = self.clock + Marking::AGE_LIMIT;
        answered(row, self.clock, kept, &mut self.columns);
    }
}
