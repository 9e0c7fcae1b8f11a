// The calls that are given a table and a marking, and some of them an event or relation asked about. Of a refused call that answers a marking it is
// the marking that was given.
use crate::state::State;
use rules::{Closure, Guarded, HoldUp, Margin, Table};
use wire::answer::Answer;

pub fn enabled(payload: &[u8], answer: &mut Answer) {
    let given = State::read(payload);
    let event = given.asked();
    answer.result(engine::enabled(&given.table, &given.marking, event), false);
}

pub fn due(payload: &[u8], answer: &mut Answer) {
    let given = State::read(payload);
    answer.result(engine::due(&given.table, &given.marking), 0);
}

pub fn happen(payload: &[u8], answer: &mut Answer) {
    let given = State::read(payload);
    let event = given.asked();
    answer.result(
        engine::happen(&given.table, &given.marking, event),
        given.marking,
    );
}

pub fn plain_tick(payload: &[u8], answer: &mut Answer) {
    let given = State::read(payload);
    answer.result(
        engine::plain_tick(&given.table, &given.marking),
        given.marking,
    );
}

pub fn margin(payload: &[u8], answer: &mut Answer) {
    let given = State::read(payload);
    let relation = given.asked();
    answer.result(
        engine::margin(&given.table, &given.marking, relation),
        Margin::NotACondition,
    );
}

pub fn hold_up(payload: &[u8], answer: &mut Answer) {
    let given = State::read(payload);
    let event = given.asked();
    answer.result(
        engine::hold_up(&given.table, &given.marking, event),
        HoldUp::Enabled,
    );
}

pub fn closure(payload: &[u8], answer: &mut Answer) {
    let given = State::read(payload);
    let refused = Closure { set: 0, size: 0 };
    answer.result(engine::closure(&given.table, &given.marking), refused);
}

pub fn check(payload: &[u8], answer: &mut Answer) {
    let given = State::read(payload);
    answer.checked(engine::check(&given.table, &given.marking), ());
}

pub fn guarded_tick(payload: &[u8], answer: &mut Answer) {
    let given = State::read(payload);
    let refused = Guarded {
        caused: [0; Table::MOST_EVENTS],
        count: 0,
        marking: given.marking,
    };
    answer.checked(engine::guarded_tick(&given.table, &given.marking), refused);
}

pub fn quiet(payload: &[u8], answer: &mut Answer) {
    let given = State::read(payload);
    answer.result(sleep::quiet(&given.table, &given.marking), 0);
}
