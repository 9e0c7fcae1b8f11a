// What the visits go by, and what they have come to.
ghost use Rattle.chain.specs.Stops.{Safe};

// Of a relation its right event, and the next relation that blocks the same event.
#[derive(Clone, Copy)]
pub struct Stop {
    pub right: u8,
    pub next: Option<u8>,
}

// Of each event the first relation that blocks it; and of each relation what a visit goes by.
#[derive(Clone, Copy)]
pub struct Visits {
    pub firsts: [Option<u8>; 64],
    pub stops: [Stop; 256],
    ghost safe: { Safe stops },
}

// The opened events, and how many links are noted.
// The count stands beside the list: a rest of the list that each visit hands back is no plainer, since its promise tells two lists from one.
#[derive(Clone, Copy)]
pub struct Walk {
    pub opened: u64,
    pub count: usize,
}

impl Stop {
    pub const NONE: Stop = Stop {
        right: 0,
        next: None,
    };
}
