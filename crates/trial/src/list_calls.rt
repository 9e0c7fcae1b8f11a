// The calls that are lent lists, behind a table and a marking. A lent list to write to is told whole behind the answer.
ghost use Rattle.std.specs.Prelude.{◌≡◌, ◌≤◌, length, take};
ghost use Rattle.rules.specs.Results.{as_marking};
ghost use Rattle.rules.specs.Trace.{run, run_answers};

use crate::state::State;
use engine::Remedy;
use rules::{Marking, Refusal, Slept, Step, Table};
use wire::answer::Answer;
use wire::list;
use wire::payload::{Given, MARKING};

// Which list the stretch is of, and the stretch.
pub fn remedies(payload: &[u8], answer: &mut Answer) {
    let given = State::read(payload);
    let mut behind = given.behind;
    let preferred = behind.list();
    let remedy = engine::remedies(&given.table, &given.marking, preferred, behind.rest());
    let nothing: &[u8] = &[];
    answer.result(
        remedy.map(|remedy| (remedy.fallback, remedy.start)),
        (false, nothing),
    );
}

// A number and a marking.
const MARKED: usize = 1 + MARKING as usize;

// A runner is lent the steps' bytes and a buffer, which is the part of the answer behind the number and the marking.
fn ran<F>(payload: &[u8], answer: &mut Answer, run: F)
where
    F: FnOnce(&Table, &Marking, &[u8], &mut [u8]) -> Result<Marking, Refusal>,
    requires { F.IsAlwaysCallable run }
{
    let given = State::read(payload);
    let mut behind = given.behind;
    let steps = behind.list();
    let buffer = behind.rest();
    let end = run(
        &given.table,
        &given.marking,
        steps,
        answer.lent(MARKED, buffer),
    );
    answer.result(end, given.marking);
    answer.past(buffer.len());
}

pub fn run_bytes(payload: &[u8], answer: &mut Answer) {
    ran(payload, answer, engine::run_bytes);
}

// More places than the longest granted trace has steps, 4,096: a longer one comes to the runner too, and is refused there.
const STEPS: usize = 4200;

// The first n steps are lent to the runner.
fn run_steps(
    t: &Table,
    m: &Marking,
    steps: &[Step; STEPS],
    n: usize,
    answers: &mut [u8],
) -> Result<Marking, Refusal>
    requires { n ≤ 4200 }
    ensures answer { as_marking m.now result ≡ run t.now m.now (take n steps.now) (length answers.old) }
    ensures answers { answers.new ≡ run_answers t.now m.now (take n steps.now) answers.old }
{
    engine::run(t, m, &steps[..n], answers)
}

// The same of their bytes on the wire.
fn run_told(t: &Table, m: &Marking, steps: &[u8], answers: &mut [u8]) -> Result<Marking, Refusal> {
    let mut room = [Step { kind: 0, event: 0 }; STEPS];
    let n = list::lent(&mut room, 2, steps).len();
    run_steps(t, m, &room, n, answers)
}

pub fn run(payload: &[u8], answer: &mut Answer) {
    ran(payload, answer, run_told);
}

// More places than a list must have, 256: a shorter one comes to the call too, and is refused there.
const LINKS: usize = 600;

pub fn chain(payload: &[u8], answer: &mut Answer) {
    let given = State::read(payload);
    let mut behind = given.behind;
    let event = usize::read(&mut behind);
    let mut room = [0u16; LINKS];
    let links = list::lent(&mut room, 2, behind.rest());
    let count = chain::chain(&given.table, &given.marking, event, links);
    answer.result(count, 0);
    answer.each(links);
}

// So many places a list has at most on the wire.
const ENTRIES: usize = 2000;

pub fn sleep(payload: &[u8], answer: &mut Answer) {
    let given = State::read(payload);
    let mut behind = given.behind;
    let ticks = usize::read(&mut behind);
    let mut room = [0u32; ENTRIES];
    let entries = list::lent(&mut room, 4, behind.rest());
    let slept = sleep::sleep(&given.table, &given.marking, ticks, entries);
    let refused = Slept {
        count: 0,
        marking: given.marking,
    };
    answer.checked(slept, refused);
    answer.each(entries);
}
