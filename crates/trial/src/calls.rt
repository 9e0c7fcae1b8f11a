// A call takes its arguments from the payload and puts its whole answer. A later call is a function, and a line here.
use crate::{list_calls, set_calls, state_calls};
use wire::answer::Answer;
use wire::call::Call;
use wire::images;

pub fn answer(call: Call, payload: &[u8], answer: &mut Answer) {
    match call {
        Call::ReadTable => images::read_table(payload, answer),
        Call::ReadMarking => images::read_marking(payload, answer),
        Call::WriteMarking => images::write_marking(payload, answer),
        Call::Fresh => images::fresh(payload, answer),
        Call::JudgeTable => images::judge_table(payload, answer),
        Call::JudgeMarking => images::judge_marking(payload, answer),
        Call::Size => set_calls::size(payload, answer),
        Call::Lowest => set_calls::lowest(payload, answer),
        Call::Enabled => state_calls::enabled(payload, answer),
        Call::Due => state_calls::due(payload, answer),
        Call::PlainTick => state_calls::plain_tick(payload, answer),
        Call::Margin => state_calls::margin(payload, answer),
        Call::HoldUp => state_calls::hold_up(payload, answer),
        Call::Closure => state_calls::closure(payload, answer),
        Call::Check => state_calls::check(payload, answer),
        Call::GuardedTick => state_calls::guarded_tick(payload, answer),
        Call::Remedies => list_calls::remedies(payload, answer),
        Call::Run => list_calls::run(payload, answer),
        Call::RunBytes => list_calls::run_bytes(payload, answer),
        Call::WriteTable => images::write_table(payload, answer),
        Call::CarryMarking => images::carry_marking(payload, answer),
        Call::Chain => list_calls::chain(payload, answer),
        Call::Happen => state_calls::happen(payload, answer),
        Call::Sleep => list_calls::sleep(payload, answer),
        Call::Quiet => state_calls::quiet(payload, answer),
    }
}
