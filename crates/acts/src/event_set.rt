// Event sets: event n is the bit worth 2^n.
ghost use Rattle.std.specs.Prelude.{◌≡◌, ℕ, ◌<◌, ◌≤◌, eqb, ltb, ◌&&◌, ◌||◌, not};
ghost use Rattle.rules.specs.EventSet.{has, size_of, lowest_of, with_event};

// Event n is in the set.
pub fn has_event(set: u64, n: usize) -> bool
    requires { n < 64 }
    ensures { result ≡ has set n }
{
    (set >> n) % 2 == 1
}

// The set, with the event.
pub fn adding(set: u64, event: usize) -> u64
    requires { event < 64 }
    ensures { result ≡ with_event set event }
{
    set | (1 << event)
}

// The set, with the event if so.
pub fn with_if(set: u64, so: bool, e: usize) -> u64
    requires { e < 64 }
    ensures { (x : ℕ) → has result x ≡ (has set x || (so && eqb e x)) }
{
    set | ((so as u64) << e)
}

// The set, without the events of another.
pub fn without(set: u64, other: u64) -> u64
    ensures { (x : ℕ) → has result x ≡ (has set x && not (has other x)) }
{
    set & !other
}

// The first n events.
pub fn first(n: usize) -> u64
    requires { (0 < n) × (n ≤ 64) }
    ensures { (x : ℕ) → has result x ≡ ltb x n }
{
    0xffff_ffff_ffff_ffff >> (64 - n)
}

// How many events a set holds.
pub fn size(set: u64) -> u32
    ensures { result ≡ size_of set }
{
    u64::count_ones(set)
}

// The lowest event of a set, 64 for none.
pub fn lowest(set: u64) -> u32
    ensures { result ≡ lowest_of set }
{
    u64::trailing_zeros(set)
}
