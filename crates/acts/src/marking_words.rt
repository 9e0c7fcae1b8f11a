// A marking as words.
ghost use Rattle.std.specs.Prelude.{◌≤◌};

// Four sets of events, and for each event, in columns, the tick at which its age is full, the tick at which its deadline is over, and its count.
// The ticks are told against a clock, so a tick moves the clock and nothing else.
#[derive(Clone, Copy)]
pub struct MarkingWords {
    pub clock: u32,
    pub sets: [u64; 4],
    pub columns: [u32; 192],
    ghost clock_goes_on: { clock ≤ 2147483648 },
}
