// A sleep by the words of a judged table and marking.
ghost use Rattle.std.specs.Prelude.{◌≡◌, ◌≤◌, drop};
ghost use Rattle.rules.specs.declared.Marking.{Marking as Marked};
ghost use Rattle.rules.specs.Judge.{judged};
ghost use Rattle.rules.specs.Sleep.{most_ticks};
ghost use Rattle.acts.specs.Words.{WordsOf, StandFor};
ghost use Rattle.sleep.specs.Ended.{Ended};

use crate::passing;
use acts::marking_words::MarkingWords;
use acts::table_words::TableWords;
use duties::reasons;
use rules::{CheckError, Refusal, Table};

// How many events were caused; the words are then those of the marking after it. Its frame stands apart: put into its caller it has the table's
// words made twice.
#[inline(never)]
pub fn by_words(
    t: &Table,
    table: &TableWords,
    marking: &mut MarkingWords,
    ticks: u32,
    list: &mut [u32],
) -> Result<usize, CheckError>
    requires start { (marking.old.clock ≡ 0) × (ticks ≤ most_ticks) }
    requires words { WordsOf t.now table.now }
    ensures { (m : Marked) → judged t.now m ≡ 0 → StandFor t.now.events (drop m.events m.records) marking.old m
        → Ended t.now m ticks list.old result marking.new list.new }
{
    reasons::verdict(t, reasons::found(&table.rows, marking))?;
    if !passing::has_room(table, marking, ticks, list.len()) {
        return Err(CheckError::Refused(Refusal::Room));
    }
    Ok(passing::pass(table, marking, ticks, list))
}
