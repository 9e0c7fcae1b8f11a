// The events of a set, one by one, the lowest first.
ghost use Rattle.std.specs.Prelude.{◌≡◌};
ghost use Rattle.std.specs.Iterator.{at_most};
ghost use Rattle.acts.specs.Events.{LowestFirst};

use crate::event_set;

// Those that are still to come.
#[derive(Drop)]
pub struct Events {
    pub left: u64,
}

impl Events {
    pub fn of(set: u64) -> Events
        ensures { result.left ≡ set }
    {
        Events { left: set }
    }
}

impl Iterator for Events {
    type Item = usize;

    ghost next_gives = { LowestFirst };

    ghost remaining = { λ s. at_most s.left };

    fn next(&mut self) -> Option<usize> {
        if self.left == 0 {
            return None;
        }
        let e = event_set::lowest(self.left) as usize;
        self.left -= 1 << e;
        Some(e)
    }
}
