// A table as words.
ghost use Rattle.std.specs.Prelude.{◌<◌, ◌≤◌, ◌+◌, length};

use crate::derived::Head;

// Of a table's relations a row of ten words for each event, the row of event e from 10 e on; and what the table says besides.
#[derive(Clone, Copy)]
pub struct Rows {
    pub words: [u64; 640],
    pub head: Head,
    ghost some_events: { 0 < head.events },
    ghost few_events: { head.events ≤ 64 },
}

// The rows, and a link for each relation that is in a chain.
#[derive(Clone, Copy)]
pub struct TableWords {
    pub rows: Rows,
    pub links: [u64; 256],
}

// The row of one event, and the links that its chains go by.
#[derive(Clone, Copy)]
pub struct OwnRow {
    pub words: [u64; 10],
    pub links: [u64; 256],
}

// The row of one event, from `at` on, and the links that its chains go by, where they stand.
#[derive(Clone, Copy)]
pub struct Row<'a> {
    pub words: &'a [u64],
    pub at: usize,
    pub links: &'a [u64; 256],
    ghost in_words: { at + 10 ≤ length words.now },
}
