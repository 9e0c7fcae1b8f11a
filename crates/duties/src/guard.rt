// The guarded tick, over the words of table and marking.
ghost use Rattle.std.specs.Prelude.{◌≡◌, List, ℕ, ◌<◌, ◌≤◌, ◌+◌, ◌^◌, length};
ghost use Rattle.rules.specs.declared.Record.{Record};
ghost use Rattle.rules.specs.declared.Marking.{Marking};
ghost use Rattle.rules.specs.declared.Table.{Table};
ghost use Rattle.rules.specs.Guard.{needed, goes_ahead, order_of, order, taken as takenOf, taken_all, executed_of, caused as causedBy, guarded};
ghost use Rattle.acts.specs.Stands.{Stands};
ghost use Rattle.acts.specs.Words.{RowsOf, WordsOf, StandFor};
ghost use Rattle.duties.specs.AtStart.{AtStart};

use crate::{following, ready};
use acts::events::Events;
use acts::marking_words::MarkingWords;
use acts::table_words::{Rows, TableWords};
use acts::{event_set, laid};

// The due events and, repeatedly, the inhibitors that hold them back, where these are missing or pending; with nothing due there is nothing to look
// for. An event's inhibitors are looked up in its row when it is opened: few are.
fn needed(rows: &Rows, marking: &MarkingWords) -> u64
    ensures { (t : Table) (tail : List Record) (m : Marking) → RowsOf t rows.now → StandFor t.events tail marking.now m → result ≡ needed t m }
{
    let due = marking.due(rows.head.events);
    if due == 0 {
        return 0;
    }
    let included = marking.sets[laid::INCLUDED];
    let missing = event_set::without(included, marking.sets[laid::HAPPENED]);
    let pending = included & marking.sets[laid::PENDING];
    following::reached(|e| following::followed(rows, missing, pending, e), due)
}

// An event is executed if included at that moment, else skipped.
fn take(table: &TableWords, marking: &mut MarkingWords, e: usize) -> bool
    requires { e < 64 }
    ensures executed { (t : Table) (tail : List Record) (m : Marking) → WordsOf t table.now → e < t.events → StandFor t.events tail marking.old m
        → result ≡ goes_ahead t m e }
    ensures stand { (t : Table) (tail : List Record) (m : Marking) → WordsOf t table.now → e < t.events → StandFor t.events tail marking.old m
        → StandFor t.events tail marking.new (takenOf t m e) }
    ensures clock { marking.new.clock ≡ marking.old.clock }
{
    let included = event_set::has_event(marking.sets[laid::INCLUDED], e);
    if included {
        marking.execute(table.row(e), e, table.rows.head.firm);
    }
    included
}

// Again and again the lowest ready event is taken. The executed ones are noted in order; how many is the answer.
fn take_all(
    table: &TableWords,
    marking: &mut MarkingWords,
    caused: &mut [u8; 64],
    needed: u64,
) -> usize
    ensures upper_bound { result ≤ table.now.rows.head.events }
    ensures stand { (t : Table) (tail : List Record) (m : Marking) → WordsOf t table.now → needed < 2 ^ t.events → length caused.old ≡ 64
        → StandFor t.events tail marking.old m
        → StandFor t.events tail marking.new (taken_all t m (order_of t t.events needed))
        × AtStart (executed_of t m (order_of t t.events needed)) caused.old result caused.new }
    ensures clock { marking.new.clock ≡ marking.old.clock }
{
    let mut waiting = [0; 64];
    let mut untaken = needed;
    let mut ready = Events::of(ready::ready(&table.rows, needed, &mut waiting));
    let mut count = 0;
    for _ in 0..table.rows.head.events {
        let Some(e) = ready.next() else {
            return count;
        };
        if take(table, marking, e) {
            caused[count] = e as u8;
            count += 1;
        }
        untaken -= 1 << e;
        ready.left |= ready::free(&table.rows, waiting[e] & untaken, untaken);
    }
    count
}

// What is needed is taken. The clock stays: once a tick has passed, the words stand for the marking after the guarded tick. The executed events
// are noted in order; how many is the answer.
pub fn guarded(table: &TableWords, marking: &mut MarkingWords, caused: &mut [u8; 64]) -> usize
    ensures upper_bound { result ≤ table.now.rows.head.events }
    ensures taken { (t : Table) (tail : List Record) (m : Marking) → WordsOf t table.now → length caused.old ≡ 64
        → StandFor t.events tail marking.old m → StandFor t.events tail marking.new (taken_all t m (order t m)) }
    ensures stands { (t : Table) (tail : List Record) (m : Marking) → WordsOf t table.now → length caused.old ≡ 64
        → StandFor t.events tail marking.old m
        → Stands t.events tail (marking.new.clock + 1) marking.new.sets marking.new.columns (guarded t m)
        × AtStart (causedBy t m) caused.old result caused.new }
    ensures clock { marking.new.clock ≡ marking.old.clock }
{
    let needed = needed(&table.rows, marking);
    if needed == 0 {
        return 0;
    }
    take_all(table, marking, caused, needed)
}
