// Judging what a call is handed: the table first, then the marking; and whether the event or relation asked about exists.
ghost use Rattle.std.specs.Prelude.{◌≡◌, not, ltb};
ghost use Rattle.rules.specs.Numbers.{◌if◌};
ghost use Rattle.rules.specs.Judge.{judged};
ghost use Rattle.rules.specs.Results.{number_of};

use crate::{judge_marking, judge_table};
use rules::{Marking, Refusal, Table};

// The table, then the marking.
#[tactic(auto, unfolding(rules::specs::Judge::judged))]
pub fn judge(t: &Table, m: &Marking) -> Result<(), Refusal>
    ensures { number_of result ≡ judged t.now m.now }
{
    judge_table(t)?;
    judge_marking(t.events, m)
}

// Whether what is asked about is one of so many.
pub fn exists(asked: usize, there: usize) -> Result<(), Refusal>
    ensures { number_of result ≡ (8 if not (ltb asked there)) }
{
    if asked < there {
        Ok(())
    } else {
        Err(Refusal::NotThere)
    }
}
