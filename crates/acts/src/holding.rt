// Whether an event is enabled, and what holds it up.
ghost use Rattle.std.specs.Prelude.{◌≡◌, ◌<◌};
ghost use Rattle.rules.specs.Enabled.{is_enabled};
ghost use Rattle.rules.specs.HoldUp.{hold_up_of};
ghost use Rattle.rules.specs.Results.{as_hold_up_of};
ghost use Rattle.rules.specs.Shapes.Good.{Good};

use crate::blocking::first_blocking;
use rules::{HoldUp, Marking, Table};

pub fn is_enabled(t: &Table, m: &Marking, e: usize) -> bool
    requires good { Good t.now m.now }
    requires e_bound { e < 64 }
    ensures { result ≡ is_enabled t.now m.now e }
{
    m.records[e].included && first_blocking(t, m, e, 0, false).is_none()
}

// What blocks an event also would if its right event were included. So before the first that would block none does, and the search for one
// that does goes on from there: the relations are gone through once.
pub fn holding(t: &Table, m: &Marking, e: usize) -> HoldUp
    requires good { Good t.now m.now }
    requires e_bound { e < 64 }
    ensures { as_hold_up_of result ≡ hold_up_of t.now m.now e }
{
    if !m.records[e].included {
        return HoldUp::Excluded;
    }
    match first_blocking(t, m, e, 0, true) {
        None => HoldUp::Enabled,
        Some(unless) => match first_blocking(t, m, e, unless, false) {
            None => HoldUp::EnabledUnless(unless),
            Some(first) => HoldUp::Blocked(first),
        },
    }
}
