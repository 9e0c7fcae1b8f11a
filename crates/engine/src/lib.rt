// The engine's public calls, of a lent table and marking. Each judges the table, then the marking, then its own numbers, and promises its
// definition in the crate `rules`, whole.
#![tactic(auto)]

mod hearing;
mod runner;
mod trial;

ghost use Rattle.std.specs.Prelude.{◌≡◌, cond, length, IfOk};
ghost use Rattle.rules.specs.EventSet.{size_of, lowest_of};
ghost use Rattle.rules.specs.Numbers.{margin_in_numbers, hold_up_in_numbers, check_in_numbers};
ghost use Rattle.rules.specs.Results.{
  number_of,
  value_or,
  as_enabled,
  as_set,
  as_marking,
  as_margin,
  as_hold_up,
  as_closure,
  as_check,
  as_guarded,
};
ghost use Rattle.rules.specs.Enabled.{enabled_answer};
ghost use Rattle.rules.specs.Time.{due_answer, plain_tick};
ghost use Rattle.rules.specs.Happen.{happen};
ghost use Rattle.rules.specs.Margin.{margin, told_margin};
ghost use Rattle.rules.specs.HoldUp.{hold_up, told_hold_up};
ghost use Rattle.rules.specs.Closure.{closure_answer};
ghost use Rattle.rules.specs.Check.{check, told_check};
ghost use Rattle.rules.specs.Guard.{guarded_tick};
ghost use Rattle.rules.specs.Remedy.{remedy, stretch};
ghost use Rattle.rules.specs.Trace.{run, run_answers, run_bytes, run_bytes_answers};
ghost use Rattle.rules.specs.Station.{heard_number, heard_bytes, heard_output};

use crate::runner::{bytes_granted, granted, played};
use crate::trial::discharging;
use acts::derived::Head;
use acts::event_set;
use acts::holding::{holding, is_enabled};
use acts::margin::margin_of;
use acts::marking_words::MarkingWords;
use acts::table_words::{OwnRow, Rows, TableWords};
use duties::following::Following;
use duties::guard::guarded;
use duties::reasons::{found, verdict};
use image::judging::{exists, judge};
use rules::{
    CheckError, Closure, Guarded, HoldUp, LONGEST_LIST, Margin, Marking, Refusal, Step, Table,
};

// What a remedy starts with: the first events of one of the operator's own lists, of the fallback or of the preferred one.
#[derive(Clone, Copy)]
pub struct Remedy<'a> {
    pub fallback: bool,
    pub start: &'a [u8],
}

// How many events a set holds.
pub fn size(set: u64) -> u32
    ensures { result ≡ size_of set }
{
    event_set::size(set)
}

// The lowest event of a set, 64 for none.
pub fn lowest(set: u64) -> u32
    ensures { result ≡ lowest_of set }
{
    event_set::lowest(set)
}

// Whether an event is enabled.
pub fn enabled(t: &Table, m: &Marking, event: usize) -> Result<bool, Refusal>
    ensures { as_enabled result ≡ enabled_answer t.now m.now event }
{
    judge(t, m)?;
    exists(event, t.events)?;
    Ok(is_enabled(t, m, event))
}

// The due events.
pub fn due(t: &Table, m: &Marking) -> Result<u64, Refusal>
    ensures { as_set result ≡ due_answer t.now m.now }
{
    judge(t, m)?;
    Ok(MarkingWords::of(m).due(t.events))
}

// An event happens: whatever its class, it is executed, if it exists and is enabled. Only its own row and links are made.
pub fn happen(t: &Table, m: &Marking, event: usize) -> Result<Marking, Refusal>
    ensures { as_marking m.now result ≡ happen t.now m.now event }
{
    judge(t, m)?;
    exists(event, t.events)?;
    let own = OwnRow::of(t, event);
    let mut marking = MarkingWords::of(m);
    marking.happen(own.row(), event, Head::of(t).firm)?;
    Ok(marking.marking(m))
}

// One tick passes, unless an event is due.
pub fn plain_tick(t: &Table, m: &Marking) -> Result<Marking, Refusal>
    ensures { as_marking m.now result ≡ plain_tick t.now m.now }
{
    judge(t, m)?;
    let mut marking = MarkingWords::of(m);
    if marking.due(t.events) != 0 {
        return Err(Refusal::StillDue);
    }
    marking.pass_tick();
    Ok(marking.marking(m))
}

// The margin of a condition.
pub fn margin(t: &Table, m: &Marking, relation: usize) -> Result<Margin, Refusal>
    ensures answer { as_margin result ≡ margin t.now m.now relation }
    ensures told { margin_in_numbers (as_margin result) ≡ told_margin t.now m.now relation }
{
    judge(t, m)?;
    exists(relation, t.count)?;
    let k = t.relations[relation];
    Ok(margin_of(k, m.records[k.right as usize]))
}

// What holds an event up.
pub fn hold_up(t: &Table, m: &Marking, event: usize) -> Result<HoldUp, Refusal>
    ensures answer { as_hold_up result ≡ hold_up t.now m.now event }
    ensures told { hold_up_in_numbers (as_hold_up result) ≡ told_hold_up t.now m.now event }
{
    judge(t, m)?;
    exists(event, t.events)?;
    Ok(holding(t, m, event))
}

// The closure and its size, also where the check rejects.
pub fn closure(t: &Table, m: &Marking) -> Result<Closure, Refusal>
    ensures { as_closure result ≡ closure_answer t.now m.now }
{
    judge(t, m)?;
    let set = Following::of(t).closure(&MarkingWords::of(m), t.events);
    Ok(Closure {
        set,
        size: event_set::size(set),
    })
}

// The static check.
pub fn check(t: &Table, m: &Marking) -> Result<(), CheckError>
    ensures answer { as_check result ≡ check t.now m.now }
    ensures told { check_in_numbers (as_check result) ≡ told_check t.now m.now }
{
    judge(t, m)?;
    let found = found(&Rows::of(t), &MarkingWords::of(m));
    verdict(t, found)?;
    Ok(())
}

// The needed events are executed in order and one tick passes, unless the check rejects.
pub fn guarded_tick(t: &Table, m: &Marking) -> Result<Guarded, CheckError>
    ensures { as_guarded m.now result ≡ guarded_tick t.now m.now }
{
    judge(t, m)?;
    let table = TableWords::of(t);
    let mut marking = MarkingWords::of(m);
    verdict(t, found(&table.rows, &marking))?;
    let mut caused = [0; Table::MOST_EVENTS];
    let count = guarded(&table, &mut marking, &mut caused);
    marking.pass_tick();
    Ok(Guarded {
        caused,
        count,
        marking: marking.marking(m),
    })
}

// The shortest start that discharges, of the preferred list if it has one, else of the fallback. The marking is untouched: what is tried is tried
// on a copy.
pub fn remedies<'a>(
    t: &Table,
    m: &Marking,
    preferred: &'a [u8],
    fallback: &'a [u8],
) -> Result<Remedy<'a>, Refusal>
    ensures number { number_of result ≡ (remedy t.now m.now preferred.now fallback.now).number }
    ensures fallback { IfOk result (λ found. found.fallback ≡ (remedy t.now m.now preferred.now fallback.now).fallback) }
    ensures stretch { IfOk result (λ found. found.start.now
        ≡ stretch (remedy t.now m.now preferred.now fallback.now) preferred.now fallback.now) }
    ensures own { IfOk result (λ found. found.start.ref_ptr
        ≡ cond (remedy t.now m.now preferred.now fallback.now).fallback fallback.entry.ref_ptr preferred.entry.ref_ptr) }
{
    judge(t, m)?;
    if LONGEST_LIST < preferred.len() || LONGEST_LIST < fallback.len() {
        return Err(Refusal::Room);
    }
    let table = TableWords::of(t);
    let mut marking = MarkingWords::of(m);
    let mut trial = marking;
    if let Some(start) = discharging(&table, &mut trial, preferred) {
        return Ok(Remedy {
            fallback: false,
            start,
        });
    }
    match discharging(&table, &mut marking, fallback) {
        Some(start) => Ok(Remedy {
            fallback: true,
            start,
        }),
        None => Err(Refusal::NoRemedy),
    }
}

// A trace of steps of 2 bytes, kind and event; one answer byte per step. Nothing is written before the whole trace is known to be granted.
pub fn run_bytes(
    t: &Table,
    m: &Marking,
    steps: &[u8],
    answers: &mut [u8],
) -> Result<Marking, Refusal>
    ensures answer { as_marking m.now result ≡ run_bytes t.now m.now steps.now (length answers.old) }
    ensures answers { answers.new ≡ run_bytes_answers t.now m.now steps.now answers.old }
{
    bytes_granted(t, m, steps.len(), answers.len())?;
    let step_at = |i: usize| Step {
        kind: steps[2 * i],
        event: steps[2 * i + 1],
    };
    Ok(played(t, m, step_at, &mut answers[..steps.len() / 2]))
}

// The same of a lent list of steps.
pub fn run(t: &Table, m: &Marking, steps: &[Step], answers: &mut [u8]) -> Result<Marking, Refusal>
    ensures answer { as_marking m.now result ≡ run t.now m.now steps.now (length answers.old) }
    ensures answers { answers.new ≡ run_answers t.now m.now steps.now answers.old }
{
    judge(t, m)?;
    granted(steps.len(), answers.len())?;
    Ok(played(t, m, |i: usize| steps[i], &mut answers[..steps.len()]))
}

// What the station program keeps of its input: as much as the longest has that is granted.
pub const LONGEST_INPUT: usize = hearing::LONGEST_INPUT;

// What it lends for the output.
pub const LONGEST_OUTPUT: usize = hearing::LONGEST_OUTPUT;

// What the station program writes for its whole input, of which the first bytes are kept and so many came after them: how many bytes it is, at the
// start of the output. 14, and nothing is written, where the output is shorter than the longest, or where bytes come after fewer kept ones than
// the longest input has.
pub fn station(input: &[u8], beyond: usize, output: &mut [u8]) -> Result<usize, Refusal>
    ensures number { number_of result ≡ heard_number (length input.now) beyond (length output.old) }
    ensures count { value_or 0 result ≡ length (heard_bytes input.now beyond (length output.old)) }
    ensures output { output.new ≡ heard_output input.now beyond output.old }
{
    hearing::granted(input.len(), beyond, output.len())?;
    Ok(hearing::told(input, beyond, output))
}
