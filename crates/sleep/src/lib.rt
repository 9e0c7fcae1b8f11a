// So many guarded ticks in one call, and how many there can be before an event is due. The table and the marking are judged once and laid out as
// words once, the check is made once, and a run of ticks before which nothing falls due is passed in one go.
#![tactic(auto)]

mod passing;
mod slept;

ghost use Rattle.std.specs.Prelude.{◌≡◌, length};
ghost use Rattle.rules.specs.Sleep.{sleep_answer, sleep_list};
ghost use Rattle.rules.specs.Quiet.{quiet_answer};
ghost use Rattle.rules.specs.Results.{as_slept, as_ticks};

use acts::marking_words::MarkingWords;
use acts::table_words::TableWords;
use image::judging;
use rules::{CheckError, Marking, Refusal, Slept, Table};

// Into the first places of the list: 256 times the number of the tick before which an event was caused, and the event. Nothing is written before
// the whole list is known to fit.
pub fn sleep(t: &Table, m: &Marking, ticks: usize, list: &mut [u32]) -> Result<Slept, CheckError>
    ensures answer { as_slept m.now result ≡ sleep_answer t.now m.now ticks (length list.old) }
    ensures list { list.new ≡ sleep_list t.now m.now ticks list.old }
{
    judging::judge(t, m)?;
    if Slept::MOST_TICKS < ticks {
        return Err(CheckError::Refused(Refusal::Room));
    }
    let table = TableWords::of(t);
    let mut marking = MarkingWords::of(m);
    let count = slept::by_words(t, &table, &mut marking, ticks as u32, list)?;
    Ok(Slept {
        count,
        marking: marking.marking(m),
    })
}

// How many guarded ticks can pass before one finds an event due, and no more than a sleep passes. The check is not made.
pub fn quiet(t: &Table, m: &Marking) -> Result<usize, Refusal>
    ensures { as_ticks result ≡ quiet_answer t.now m.now }
{
    judging::judge(t, m)?;
    let marking = MarkingWords::of(m);
    Ok(marking.quiet(t.events, Slept::MOST_TICKS as u32) as usize)
}
