// Frames on standard input.
use std::io::Stdin;

// A call's number, and what it is given.
#[derive(Clone, Copy)]
pub struct Frame<'a> {
    pub call: u8,
    pub payload: &'a [u8],
}

// None if the input ends before the space is full, or a read fails.
fn filled(input: Stdin, space: &mut [u8]) -> Option<()> {
    let count = streams::read_or_fail(input, space).ok()?;
    (count == space.len()).then_some(())
}

// The next frame: the call's number, the payload's length in two bytes, and the payload, which stands in `room` then. None at the end of the
// input, or if the room is too small.
pub fn next(input: Stdin, room: &mut [u8]) -> Option<Frame<'_>> {
    let mut head = [0u8; 3];
    filled(input, &mut head)?;
    let [call, low, high] = head;
    let payload = room.get_mut(..u16::from_le_bytes([low, high]) as usize)?;
    filled(input, payload)?;
    Some(Frame { call, payload })
}
