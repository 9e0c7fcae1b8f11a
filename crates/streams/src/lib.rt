// The standard streams, read and written whole, for the programs. A read or a write that a signal interrupts counts as one that failed.
#![tactic(auto)]

ghost use Rattle.std.specs.Prelude.{◌≤◌, length, IfOk, IfErr};

use std::io::{Read, Write};

// A read failed, behind so many bytes.
#[derive(Clone, Copy, Debug)]
pub struct ReadFailed {
    pub count: usize,
}

// A write failed, or took nothing.
#[derive(Clone, Copy, Debug)]
pub struct WriteFailed;

// Reads until the space is full, the input ends or a read fails, and tells how many bytes it put at the start of the space. For an empty space it
// makes no call. Whether a read failed it does not tell.
pub fn read_full<R: Read + Drop>(input: R, space: &mut [u8]) -> usize
    ensures { result ≤ length space.new }
{
    read_or_fail(input, space).unwrap_or_else(|failed| failed.count)
}

// The same, and a read that failed is told.
pub fn read_or_fail<R: Read + Drop>(mut input: R, space: &mut [u8]) -> Result<usize, ReadFailed>
    ensures read { IfOk result (λ count. count ≤ length space.new) }
    ensures failed { IfErr result (λ failed. failed.count ≤ length space.new) }
{
    let mut count = 0;
    while count < space.len() {
        match input.read(&mut space[count..]) {
            Ok(0) => return Ok(count),
            Ok(more) => count += more,
            Err(_) => return Err(ReadFailed { count }),
        }
    }
    Ok(count)
}

// Writes all of the bytes; or stops at the first write that takes nothing or fails: some of them may have been written then. For no bytes it
// makes no call.
pub fn write_all<W: Write + Drop>(mut output: W, bytes: &[u8]) -> Result<(), WriteFailed> {
    let mut rest = bytes;
    while !rest.is_empty() {
        match output.write(rest) {
            Ok(0) | Err(_) => return Err(WriteFailed),
            Ok(count) => rest = &rest[count..],
        }
    }
    Ok(())
}
