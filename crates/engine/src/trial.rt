// An offered list is tried, in words of the trial's own.
ghost use Rattle.std.specs.Prelude.{◌≡◌, true, ◌&&◌, List, ◌<◌, ◌≤◌, length, take, Option, IfSome, IfNone, IsSome};
ghost use Rattle.rules.specs.declared.Record.{Record};
ghost use Rattle.rules.specs.declared.Marking.{Marking};
ghost use Rattle.rules.specs.declared.Table.{Table};
ghost use Rattle.rules.specs.Judge.{judged};
ghost use Rattle.rules.specs.Time.{any_due};
ghost use Rattle.rules.specs.Remedy.{shortest};
ghost use Rattle.rules.specs.Shapes.Tried.{may_cause};
ghost use Rattle.acts.specs.Words.{WordsOf, StandFor};
ghost use Rattle.engine.specs.Trial.{Tried};

use acts::event_set;
use acts::marking_words::MarkingWords;
use acts::table_words::TableWords;

// An event of a list exists, is causable and is enabled.
fn may_cause(table: &TableWords, marking: &MarkingWords, e: usize) -> bool
    ensures value { (t : Table) (tail : List Record) (m : Marking) → WordsOf t table.now → StandFor t.events tail marking.now m
        → result ≡ may_cause t m e }
    ensures exists { result ≡ true → e < table.now.rows.head.events }
{
    let head = table.rows.head;
    e < head.events && event_set::has_event(head.causable, e) && marking.may_act(table.row(e), e)
}

// Some event is due, and the next of the list may be caused.
fn goes_on(table: &TableWords, marking: &MarkingWords, e: usize) -> bool
    ensures value { (t : Table) (tail : List Record) (m : Marking) → WordsOf t table.now → StandFor t.events tail marking.now m
        → result ≡ (any_due m && may_cause t m e) }
    ensures exists { result ≡ true → e < table.now.rows.head.events }
{
    marking.due(table.rows.head.events) != 0 && may_cause(table, marking, e)
}

// The events of a list in turn, as long as some event is due and the next may be caused: how many were.
fn tried(table: &TableWords, marking: &mut MarkingWords, list: &[u8]) -> usize
    ensures upper_bound { result ≤ length list.now }
    ensures stands { (t : Table) (tail : List Record) (m : Marking) → judged t m ≡ 0 → WordsOf t table.now
        → StandFor t.events tail marking.old m
        → (after : Marking) × StandFor t.events tail marking.new after × Tried t m list.now result after }
{
    for (i, event) in list.iter().enumerate() {
        let e = *event as usize;
        if !goes_on(table, marking, e) {
            return i;
        }
        marking.execute(table.row(e), e, table.rows.head.firm);
    }
    list.len()
}

// The shortest start of a list that discharges.
pub fn discharging<'a>(
    table: &TableWords,
    marking: &mut MarkingWords,
    list: &'a [u8],
) -> Option<&'a [u8]>
    ensures found { (t : Table) (tail : List Record) (m : Marking) → judged t m ≡ 0 → WordsOf t table.now
        → StandFor t.events tail marking.old m
        → IfSome result (λ start. (shortest t m list.now ≤ length list.now) × (start.now ≡ take (shortest t m list.now) list.now)) }
    ensures own { IfSome result (λ start. start.ref_ptr ≡ list.entry.ref_ptr) }
    ensures none { (t : Table) (tail : List Record) (m : Marking) → judged t m ≡ 0 → WordsOf t table.now
        → StandFor t.events tail marking.old m → IfNone result (length list.now < shortest t m list.now) }
{
    let count = tried(table, marking, list);
    if marking.due(table.rows.head.events) == 0 {
        Some(&list[..count])
    } else {
        None
    }
}
