// What a call answers: put byte by byte into a frame, which begins with the answer's length.
ghost use Rattle.std.specs.Prelude.{◌≡◌, ◌+◌, ◌-◌, ◌^◌, ◌≤◌, length, min, take};

use rules::{CheckError, Refusal};
use std::io::Stdout;
use streams::WriteFailed;

// An answer is at most so long.
const LONGEST: usize = 19998;

// The length has two bytes.
const START: usize = 2;

const END: usize = START + LONGEST;

// An answer that is longer than it may be is counted on, and not sent.
#[derive(Drop)]
pub struct Answer {
    frame: [u8; END],
    end: usize,
}

impl Answer {
    pub fn new() -> Answer {
        Answer {
            frame: [0; END],
            end: START,
        }
    }

    pub fn bytes(&mut self, bytes: &[u8]) {
        let start = self.end;
        self.end = start.saturating_add(bytes.len());
        if self.end <= END {
            self.frame[start..self.end].copy_from_slice(bytes);
        }
    }

    // A buffer's bytes, behind so many more of the answer: a call is lent this part of it in the buffer's stead. It is counted once what stands
    // before it is put (`past`).
    pub fn lent(&mut self, behind: usize, buffer: &[u8]) -> &mut [u8]
        ensures start { result.now ≡ take (length result.now) buffer.now }
        ensures whole { self.old.end + behind + length buffer.now ≤ 20000 → result.now ≡ buffer.now }
    {
        let start = self.end.saturating_add(behind).min(END);
        let end = start.saturating_add(buffer.len()).min(END);
        let lent = &mut self.frame[start..end];
        lent.copy_from_slice(&buffer[..end - start]);
        lent
    }

    // So many bytes stand there already.
    pub fn past(&mut self, count: usize)
        ensures { self.new.end ≡ min (self.old.end + count) (2 ^ 64 - 1) }
    {
        self.end = self.end.saturating_add(count);
    }

    pub fn each<T: Told>(&mut self, values: &[T]) {
        for value in values {
            value.put(self);
        }
    }

    // A number, and what the call tells; in a refusal what is told in its place.
    pub fn result<T: Told>(&mut self, outcome: Result<T, Refusal>, refused: T) {
        match outcome {
            Ok(told) => {
                0u8.put(self);
                told.put(self);
            }
            Err(refusal) => {
                u8::from(refusal).put(self);
                refused.put(self);
            }
        }
    }

    // The same of a call that makes the check: behind the number come its reason and its place.
    pub fn checked<T: Told>(&mut self, outcome: Result<T, CheckError>, refused: T) {
        match outcome {
            Ok(told) => {
                self.head(0, 0, 0);
                told.put(self);
            }
            Err(CheckError::Refused(refusal)) => {
                self.head(u8::from(refusal), 0, 0);
                refused.put(self);
            }
            Err(CheckError::Rejected(rejection)) => {
                self.head(
                    u8::from(Refusal::Rejected),
                    u8::from(rejection.reason),
                    rejection.place,
                );
                refused.put(self);
            }
        }
    }

    fn head(&mut self, number: u8, reason: u8, place: usize) {
        number.put(self);
        reason.put(self);
        place.put(self);
    }

    // Nothing is written of an answer that is too long.
    pub fn send(&mut self, output: Stdout) -> Result<(), WriteFailed> {
        let Some(length) = self.end.checked_sub(START) else {
            return Err(WriteFailed);
        };
        if LONGEST < length {
            return Err(WriteFailed);
        }
        self.frame[..START].copy_from_slice(&(length as u16).to_le_bytes());
        streams::write_all(output, &self.frame[..self.end])
    }
}

// A value that a call tells.
pub trait Told: Drop {
    fn put(&self, to: &mut Answer);
}

// Of a call that has a number alone.
impl Told for () {
    fn put(&self, _to: &mut Answer) {}
}

impl Told for u8 {
    fn put(&self, to: &mut Answer) {
        to.bytes(&self.to_le_bytes());
    }
}

impl Told for u16 {
    fn put(&self, to: &mut Answer) {
        to.bytes(&self.to_le_bytes());
    }
}

impl Told for u32 {
    fn put(&self, to: &mut Answer) {
        to.bytes(&self.to_le_bytes());
    }
}

impl Told for u64 {
    fn put(&self, to: &mut Answer) {
        to.bytes(&self.to_le_bytes());
    }
}

impl Told for usize {
    fn put(&self, to: &mut Answer) {
        to.bytes(&self.to_le_bytes());
    }
}

impl Told for bool {
    fn put(&self, to: &mut Answer) {
        u8::from(*self).put(to);
    }
}

impl<A: Told, B: Told> Told for (A, B) {
    fn put(&self, to: &mut Answer) {
        self.0.put(to);
        self.1.put(to);
    }
}

// A list has its length before it.
impl Told for &[u8] {
    fn put(&self, to: &mut Answer) {
        self.len().put(to);
        to.bytes(self);
    }
}
