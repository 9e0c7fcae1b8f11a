// The steps of a trace, each by the public call of its kind; what the call answered is written, and the marking handed on.
use crate::record;
use rules::{CheckError, Guarded, Marking, Refusal, Step, Table};
use std::io::Stdout;

fn told(out: Stdout, before: &Marking, answer: Result<Marking, Refusal>) -> Marking {
    let nothing: &[u8] = &[];
    record::put(out, answer.map(|_| nothing).map_err(CheckError::Refused));
    answer.unwrap_or(*before)
}

fn told_guarded(out: Stdout, before: &Marking, answer: Result<Guarded, CheckError>) -> Marking {
    match answer {
        Ok(guarded) => {
            record::put(
                out,
                Ok(&guarded.caused[..guarded.count.min(Table::MOST_EVENTS)]),
            );
            guarded.marking
        }
        Err(error) => {
            record::put(out, Err(error));
            *before
        }
    }
}

// A kind above the ticks', or a tick with an event, is no call's.
fn step(out: Stdout, t: &Table, m: &Marking, step: Step) -> Marking {
    match step.kind {
        Step::HAPPEN..=Step::LAST_HAPPEN => told(out, m, engine::happen(t, m, step.event as usize)),
        Step::PLAIN_TICK if step.event == 0 => told(out, m, engine::plain_tick(t, m)),
        Step::GUARDED_TICK if step.event == 0 => told_guarded(out, m, engine::guarded_tick(t, m)),
        _ => told(out, m, Err(Refusal::Step)),
    }
}

// The marking after the last step. A byte that is left over is none.
pub fn play(out: Stdout, t: &Table, m: Marking, steps: &[u8]) -> Marking {
    let mut after = m;
    for bytes in steps.chunks_exact(2) {
        let next = Step {
            kind: bytes[0],
            event: bytes[1],
        };
        after = step(out, t, &after, next);
    }
    after
}
