// The trace runner. The table and the marking are laid out as words once; each step then needs no judging, and the check is not asked again
// once it has accepted.
ghost use Rattle.std.specs.Prelude.{◌≡◌, ◌∷◌, [], List, ℕ, true, ◌||◌, ◌&&◌, eqb, ◌/◌, ◌%◌, ◌<◌, ◌≤◌, ◌+◌, length, get_or};
ghost use Rattle.rules.specs.declared.Record.{Record as Kept};
ghost use Rattle.rules.specs.declared.Marking.{Marking as Marked};
ghost use Rattle.rules.specs.declared.Table.{Table as Tabled};
ghost use Rattle.rules.specs.declared.Step.{Step as Stepped};
ghost use Rattle.rules.specs.CheckAnswer.{Accepts};
ghost use Rattle.rules.specs.Numbers.{◌if◌, ◌else◌};
ghost use Rattle.rules.specs.Results.{number_of};
ghost use Rattle.rules.specs.Judge.{judged};
ghost use Rattle.rules.specs.Check.{verdict};
ghost use Rattle.rules.specs.Trace.{most_steps, trace_number, end_of, answers_of};
ghost use Rattle.acts.specs.Words.{WordsOf, StandFor};
ghost use Rattle.duties.specs.Step.{Turned};
ghost use Rattle.engine.specs.Running.{Tells};

use acts::marking_words::MarkingWords;
use acts::table_words::TableWords;
use duties::step::step;
use image::judging::judge;
use rules::{Marking, Refusal, Step, Table};

// A trace of so many steps, for a buffer of so many bytes: 14.
pub fn granted(steps: usize, room: usize) -> Result<(), Refusal>
    ensures { number_of result ≡ trace_number steps room }
{
    if Step::MOST < steps || room < steps {
        Err(Refusal::Room)
    } else {
        Ok(())
    }
}

// The same of steps in so many bytes, with what comes before it: the judge's number, 1, 14.
pub fn bytes_granted(t: &Table, m: &Marking, bytes: usize, room: usize) -> Result<(), Refusal>
    ensures { number_of result ≡ (judged t.now m.now else 1 if eqb (bytes % 2) 1 else trace_number (bytes / 2) room) }
{
    judge(t, m)?;
    if bytes % 2 == 1 {
        return Err(Refusal::Length);
    }
    granted(bytes / 2, room)
}

// The answer byte of a step.
fn answer_to(
    table: &TableWords,
    marking: &mut MarkingWords,
    accepted: &mut bool,
    step_to_take: Step,
) -> u8
    requires { marking.old.clock < 2147483648 }
    ensures clock_bound { marking.new.clock ≤ marking.old.clock + 1 }
    ensures turned { (t : Tabled) (tail : List Kept) (m : Marked) → WordsOf t table.now → (accepted.old ≡ true → verdict t m ≡ Accepts)
        → StandFor t.events tail marking.old m → Turned t tail m accepted.old step_to_take result accepted.new marking.new }
{
    match step(table, marking, accepted, step_to_take) {
        Ok(()) => 0,
        Err(refusal) => refusal.into(),
    }
}

// Every step in turn, an answer to each. It is not put into its callers: they would copy the words of the table.
#[inline(never)]
fn play<F: Fn(usize) -> Step>(
    table: &TableWords,
    marking: &mut MarkingWords,
    step_at: F,
    answers: &mut [u8],
)
    requires start { marking.old.clock ≡ 0 }
    requires few { length answers.old ≤ most_steps }
    requires callable { (i : ℕ) → i < length answers.old → F.pre step_at i }
    ensures { (t : Tabled) (tail : List Kept) (m : Marked) (steps : List Stepped) → judged t m ≡ 0 → WordsOf t table.now
        → StandFor t.events tail marking.old m → length steps ≡ length answers.old → Tells (F.post step_at) steps
        → StandFor t.events tail marking.new (end_of t m steps) × (answers.new ≡ answers_of t m steps) }
{
    let mut accepted = false;
    for (i, answer) in answers.iter_mut().enumerate() {
        *answer = answer_to(table, marking, &mut accepted, step_at(i));
    }
}

// The words are laid out, and played; the end marking.
pub fn played<F: Fn(usize) -> Step>(
    t: &Table,
    m: &Marking,
    step_at: F,
    answers: &mut [u8],
) -> Marking
    requires judged { judged t.now m.now ≡ 0 }
    requires few { length answers.old ≤ most_steps }
    requires callable { (i : ℕ) → i < length answers.old → F.pre step_at i }
    ensures { (steps : List Stepped) → length steps ≡ length answers.old → Tells (F.post step_at) steps
        → (result ≡ end_of t.now m.now steps) × (answers.new ≡ answers_of t.now m.now steps) }
{
    let table = TableWords::of(t);
    let mut marking = MarkingWords::of(m);
    play(&table, &mut marking, step_at, answers);
    marking.marking(m)
}
