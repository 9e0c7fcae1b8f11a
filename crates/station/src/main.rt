// The station program: it reads standard input to the end, and then writes what the engine's call answers to it. Where a read fails nothing is
// written, and a write that fails is not tried again; either is told in one line on standard error, and the exit status is 0 all the same. Every
// input is answered by a byte or more, so an empty output is the sign of a read that failed. A read or a write that a signal interrupts counts as
// one that failed.
#![tactic(auto)]

ghost use Rattle.std.specs.Prelude.{◌≡◌, ◌⊎◌, ◌<◌, ◌≤◌, length, IfOk};

use engine::{LONGEST_INPUT, LONGEST_OUTPUT};
use std::io::{Read, Stdin};
use streams::{ReadFailed, WriteFailed};

// A block of what comes after the kept bytes.
const BLOCK: usize = 4096;

// How many bytes come after the kept ones: they are read and counted, each read into a whole block, since an input of packets loses what a read
// has no room for. A proved loop has to end, and nothing says that the input does: the reads are as many as no input has bytes.
fn beyond(mut input: Stdin) -> Result<usize, ReadFailed> {
    let mut count = 0usize;
    for _ in 0..0x4000_0000_0000_0000u64 {
        let mut block = [0u8; BLOCK];
        match input.read(&mut block) {
            Ok(0) => break,
            Ok(more) => count = count.saturating_add(more),
            Err(_) => return Err(ReadFailed { count }),
        }
    }
    Ok(count)
}

// An input that does not fill the room has nothing after it.
fn rest(input: Stdin, kept: usize) -> Result<usize, ReadFailed>
    ensures { IfOk result (λ beyond. (beyond ≡ 0) ⊎ (LONGEST_INPUT ≤ kept)) }
{
    if kept < LONGEST_INPUT {
        return Ok(0);
    }
    beyond(input)
}

// The engine's answer to a whole input: so many bytes at the start of the output, and at least one.
fn answered(input: &[u8], beyond: usize, output: &mut [u8]) -> usize
    requires room { LONGEST_OUTPUT ≤ length output.old }
    requires after { (beyond ≡ 0) ⊎ (LONGEST_INPUT ≤ length input.now) }
    ensures { (0 < result) × (result ≤ length output.new) }
{
    engine::station(input, beyond, output).unwrap_or(0)
}

// What cannot be done.
#[derive(Clone, Copy, Debug)]
enum Failure {
    Reading,
    Writing,
}

impl Failure {
    fn line(self) -> &'static [u8] {
        match self {
            Failure::Reading => b"station: the input could not be read\n",
            Failure::Writing => b"station: the output could not be written\n",
        }
    }
}

impl From<ReadFailed> for Failure {
    fn from(_failed: ReadFailed) -> Failure {
        Failure::Reading
    }
}

impl From<WriteFailed> for Failure {
    fn from(_failed: WriteFailed) -> Failure {
        Failure::Writing
    }
}

fn answer(rt: &HostRuntime) -> Result<(), Failure> {
    let mut input = [0u8; LONGEST_INPUT];
    let kept = streams::read_or_fail(rt.stdin(), &mut input)?;
    let beyond = rest(rt.stdin(), kept)?;
    let mut output = [0u8; LONGEST_OUTPUT];
    let count = answered(&input[..kept], beyond, &mut output);
    streams::write_all(rt.stdout(), &output[..count])?;
    Ok(())
}

fn main(rt: HostRuntime) {
    if let Err(failure) = answer(&rt) {
        let _ = streams::write_all(rt.stderr(), failure.line());
    }
}
