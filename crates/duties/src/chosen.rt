// The events of a set that pass a test.
ghost use Rattle.std.specs.Prelude.{◌≡◌, Bool, ◌&&◌, ℕ, ◌<◌};
ghost use Rattle.rules.specs.EventSet.{has};

use acts::event_set;
use acts::events::Events;

pub fn chosen<F: Fn(usize) -> bool>(set: u64, test: F) -> u64
    requires { (e : ℕ) → e < 64 → F.pre test e }
    ensures { (f : ℕ → Bool) → ((e : ℕ) (b : Bool) → e < 64 → F.post test e b → b ≡ f e) → (x : ℕ) → has result x ≡ (has set x && f x) }
{
    let mut found = 0;
    for e in Events::of(set) {
        found = event_set::with_if(found, test(e), e);
    }
    found
}
