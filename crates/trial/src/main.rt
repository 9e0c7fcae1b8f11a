// The bench on which every public call meets the second implementation: it reads calls from standard input and writes each call's
// whole answer. A call is its number (1 byte), the payload's length (2 bytes, little-endian) and the payload; an answer is its length
// (2 bytes) and its bytes.
#![tactic(auto)]

mod calls;
mod list_calls;
mod set_calls;
mod state;
mod state_calls;

use std::io::{Stdin, Stdout};
use wire::answer::Answer;
use wire::call::Call;
use wire::{frame, list};

// One call; None at the end of the input. A number that no call has gets the empty answer.
fn turn(input: Stdin, output: Stdout) -> Option<()> {
    let mut room = [0u8; list::BUFFER];
    let frame = frame::next(input, &mut room)?;
    let mut answer = Answer::new();
    if let Ok(call) = Call::try_from(frame.call) {
        calls::answer(call, frame.payload, &mut answer);
    }
    answer.send(output).ok()
}

// A proved loop has to end, and nothing says that the input does: the turns are more than any run has.
fn main(rt: HostRuntime) {
    for _ in 0..u64::MAX {
        if turn(rt.stdin(), rt.stdout()).is_none() {
            break;
        }
    }
}
