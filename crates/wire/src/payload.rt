// What a call is given, part by part. What the payload does not have any more reads as 0.
ghost use Rattle.std.specs.Prelude.{◌≤◌, length};

use rules::Step;

// The bytes of a table, and of a marking.
pub const TABLE: u16 = 2088;

pub const MARKING: u16 = 1032;

// What is left of a payload.
#[derive(Clone, Copy)]
pub struct Payload<'a> {
    rest: &'a [u8],
}

impl<'a> Payload<'a> {
    pub fn new(bytes: &'a [u8]) -> Payload<'a> {
        Payload { rest: bytes }
    }

    // The next bytes, so many; or all, if there are fewer.
    pub fn take(&mut self, count: usize) -> &'a [u8]
        ensures { length result.now ≤ count }
    {
        let rest = self.rest;
        let (taken, left) = rest.split_at(count.min(rest.len()));
        self.rest = left;
        taken
    }

    // All that is left.
    pub fn rest(self) -> &'a [u8] {
        self.rest
    }

    // The first of two lists: its length comes before it, in two bytes.
    pub fn list(&mut self) -> &'a [u8] {
        let length = u16::read(self) as usize;
        self.take(length)
    }

    pub fn each<T: Given + Copy>(&mut self, places: &mut [T]) {
        for place in places.iter_mut() {
            *place = T::read(self);
        }
    }

    // The next bytes, so many. They are the start of a longer rest mostly, and that is one test and no loop.
    fn bytes<const N: usize>(&mut self) -> [u8; N] {
        let rest = self.rest;
        let Some((bytes, left)) = rest.split_first_chunk() else {
            return self.last_bytes();
        };
        self.rest = left;
        *bytes
    }

    // What is left, and 0 behind it.
    fn last_bytes<const N: usize>(&mut self) -> [u8; N] {
        let mut bytes = [0; N];
        let taken = self.take(N);
        bytes[..taken.len()].copy_from_slice(taken);
        bytes
    }
}

// A value that a call is given. The numbers have an impl each: one that a macro of this repository writes is refused.
pub trait Given {
    fn read(from: &mut Payload<'_>) -> Self;
}

impl Given for u8 {
    fn read(from: &mut Payload<'_>) -> u8 {
        u8::from_le_bytes(from.bytes())
    }
}

impl Given for u16 {
    fn read(from: &mut Payload<'_>) -> u16 {
        u16::from_le_bytes(from.bytes())
    }
}

impl Given for u32 {
    fn read(from: &mut Payload<'_>) -> u32 {
        u32::from_le_bytes(from.bytes())
    }
}

impl Given for u64 {
    fn read(from: &mut Payload<'_>) -> u64 {
        u64::from_le_bytes(from.bytes())
    }
}

impl Given for usize {
    fn read(from: &mut Payload<'_>) -> usize {
        usize::from_le_bytes(from.bytes())
    }
}

// True if the byte is odd.
impl Given for bool {
    fn read(from: &mut Payload<'_>) -> bool {
        u8::read(from) % 2 == 1
    }
}

impl Given for Step {
    fn read(from: &mut Payload<'_>) -> Step {
        Step {
            kind: u8::read(from),
            event: u8::read(from),
        }
    }
}
