// One step of a trace, over the words of table and marking.
ghost use Rattle.std.specs.Prelude.{◌≡◌, true, List, ℕ, ◌<◌, ◌≤◌, ◌+◌};
ghost use Rattle.rules.specs.declared.Record.{Record};
ghost use Rattle.rules.specs.declared.Marking.{Marking};
ghost use Rattle.rules.specs.declared.Table.{Table};
ghost use Rattle.rules.specs.CheckAnswer.{Accepts};
ghost use Rattle.rules.specs.Numbers.{done, check_number};
ghost use Rattle.rules.specs.Results.{number_of};
ghost use Rattle.rules.specs.Check.{verdict};
ghost use Rattle.rules.specs.Time.{time, plain_tick_number};
ghost use Rattle.rules.specs.Guard.{guarded};
ghost use Rattle.acts.specs.Words.{RowsOf, WordsOf, StandFor};
ghost use Rattle.duties.specs.Step.{Turned};

use crate::{guard, reasons};
use acts::happen;
use acts::marking_words::MarkingWords;
use acts::table_words::{Rows, TableWords};
use rules::{Refusal, Step};

// 11: a tick passes if no event is due.
fn plain_tick(marking: &mut MarkingWords, n: usize) -> Result<(), Refusal>
    requires { (0 < n) × (n ≤ 64) × (marking.old.clock < 2147483648) }
    ensures number { (tail : List Record) (m : Marking) → StandFor n tail marking.old m → number_of result ≡ plain_tick_number m }
    ensures stand { (tail : List Record) (m : Marking) → StandFor n tail marking.old m
        → StandFor n tail marking.new (done (number_of result) (time m) m) }
    ensures clock { marking.new.clock ≤ marking.old.clock + 1 }
{
    if marking.due(n) != 0 {
        return Err(Refusal::StillDue);
    }
    marking.pass_tick();
    Ok(())
}

// 12: the check accepts. Where it is known to, it is not asked.
fn accepts(rows: &Rows, marking: &MarkingWords, accepted: bool) -> Result<(), Refusal>
    ensures { (t : Table) (tail : List Record) (m : Marking) → RowsOf t rows.now → (accepted ≡ true → verdict t m ≡ Accepts)
        → StandFor t.events tail marking.now m → number_of result ≡ check_number (verdict t m) }
{
    if !accepted && reasons::found(rows, marking).is_err() {
        return Err(Refusal::Rejected);
    }
    Ok(())
}

// A guarded tick.
fn guarded_tick(
    table: &TableWords,
    marking: &mut MarkingWords,
    accepted: bool,
) -> Result<(), Refusal>
    requires { marking.old.clock < 2147483648 }
    ensures number { (t : Table) (tail : List Record) (m : Marking) → WordsOf t table.now → (accepted ≡ true → verdict t m ≡ Accepts)
        → StandFor t.events tail marking.old m → number_of result ≡ check_number (verdict t m) }
    ensures stand { (t : Table) (tail : List Record) (m : Marking) → WordsOf t table.now → (accepted ≡ true → verdict t m ≡ Accepts)
        → StandFor t.events tail marking.old m → StandFor t.events tail marking.new (done (number_of result) (guarded t m) m) }
    ensures clock { marking.new.clock ≤ marking.old.clock + 1 }
{
    accepts(&table.rows, marking, accepted)?;
    let mut caused = [0; 64];
    guard::guarded(table, marking, &mut caused);
    marking.pass_tick();
    Ok(())
}

// One step; a refused one leaves the words as they are. Whether the check is known to accept is kept beside them.
pub fn step(
    table: &TableWords,
    marking: &mut MarkingWords,
    accepted: &mut bool,
    step: Step,
) -> Result<(), Refusal>
    requires { marking.old.clock < 2147483648 }
    ensures clock_bound { marking.new.clock ≤ marking.old.clock + 1 }
    ensures turned { (t : Table) (tail : List Record) (m : Marking) → WordsOf t table.now → (accepted.old ≡ true → verdict t m ≡ Accepts)
        → StandFor t.events tail marking.old m → Turned t tail m accepted.old step (number_of result) accepted.new marking.new }
{
    let e = step.event as usize;
    match step.kind {
        Step::HAPPEN..=Step::LAST_HAPPEN => return happen::happen(table, marking, e),
        Step::PLAIN_TICK if e == 0 => plain_tick(marking, table.rows.head.events)?,
        Step::GUARDED_TICK if e == 0 => guarded_tick(table, marking, *accepted)?,
        _ => return Err(Refusal::Step),
    }
    *accepted |= step.kind == Step::GUARDED_TICK;
    Ok(())
}
