// What the calls answer where they are not refused.
use crate::{Marking, Table};

// The events of a closure as a set, and how many they are.
#[derive(Clone, Copy, Debug, PartialEq, Eq)]
pub struct Closure {
    pub set: u64,
    pub size: u32,
}

// The margin of a condition is age minus time, and none while its right event has not happened. A condition whose right event is excluded is
// ignored; the margin is what it would be if that event were included.
#[derive(Clone, Copy, Debug, PartialEq, Eq)]
pub enum Margin {
    NotACondition,
    Ignored(Option<i32>),
    Counts(Option<i32>),
}

// Enabled unless: the relation would block if its right event were included.
#[derive(Clone, Copy, Debug, PartialEq, Eq)]
pub enum HoldUp {
    Enabled,
    EnabledUnless(usize),
    Excluded,
    Blocked(usize),
}

// The events that a guarded tick caused are the first `count` of `caused`, in order; places past them are 0.
#[derive(Clone, Copy)]
pub struct Guarded {
    pub caused: [u8; Table::MOST_EVENTS],
    pub count: usize,
    pub marking: Marking,
}

// How many events were caused while ticks were slept through; the lent list names them.
#[derive(Clone, Copy)]
pub struct Slept {
    pub count: usize,
    pub marking: Marking,
}

impl Slept {
    // One call passes at most so many ticks.
    pub const MOST_TICKS: usize = 1_000_000;
}
