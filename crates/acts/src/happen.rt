// An event that happens.
ghost use Rattle.std.specs.Prelude.{◌≡◌, ◌<◌, List, not};
ghost use Rattle.rules.specs.declared.Record.{Record as Kept};
ghost use Rattle.rules.specs.declared.Marking.{Marking as Marked};
ghost use Rattle.rules.specs.declared.Table.{Table as Tabled};
ghost use Rattle.rules.specs.Numbers.{◌if◌, done};
ghost use Rattle.rules.specs.Results.{number_of};
ghost use Rattle.rules.specs.Enabled.{is_enabled};
ghost use Rattle.rules.specs.Effect.{effect};
ghost use Rattle.rules.specs.Happen.{happen_number};
ghost use Rattle.acts.specs.Derived.{firm_set};
ghost use Rattle.acts.specs.Words.{RowOf, WordsOf, StandFor};

use crate::marking_words::MarkingWords;
use crate::table_words::{Row, TableWords};
use rules::Refusal;

impl MarkingWords {
    // An event that exists is executed if it is enabled. It is put into its callers, as `may_act` is.
    #[inline(always)]
    pub fn happen(&mut self, row: Row<'_>, e: usize, firm: u64) -> Result<(), Refusal>
        requires { e < 64 }
        ensures number { (t : Tabled) (tail : List Kept) (m : Marked) → RowOf t e row.entry → e < t.events
            → StandFor t.events tail self.old m → number_of result ≡ (10 if not (is_enabled t m e)) }
        ensures stand { (t : Tabled) (tail : List Kept) (m : Marked) → RowOf t e row.entry → e < t.events → firm ≡ firm_set t.firm
            → StandFor t.events tail self.old m → StandFor t.events tail self.new (done (number_of result) (effect t m e) m) }
        ensures clock { self.new.clock ≡ self.old.clock }
    {
        if !self.may_act(row, e) {
            return Err(Refusal::NotEnabled);
        }
        self.execute(row, e, firm);
        Ok(())
    }
}

// 8, 10: an event that exists is executed if it is enabled.
#[inline(always)]
pub fn happen(table: &TableWords, marking: &mut MarkingWords, e: usize) -> Result<(), Refusal>
    ensures number { (t : Tabled) (tail : List Kept) (m : Marked) → WordsOf t table.now → StandFor t.events tail marking.old m
        → number_of result ≡ happen_number t m e }
    ensures stand { (t : Tabled) (tail : List Kept) (m : Marked) → WordsOf t table.now → StandFor t.events tail marking.old m
        → StandFor t.events tail marking.new (done (number_of result) (effect t m e) m) }
    ensures clock { marking.new.clock ≡ marking.old.clock }
{
    if table.rows.head.events <= e {
        return Err(Refusal::NotThere);
    }
    marking.happen(table.row(e), e, table.rows.head.firm)
}
