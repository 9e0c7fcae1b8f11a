// The list of an event that exists, of a judged table and marking.
ghost use Rattle.std.specs.Prelude.{◌≡◌, ◌++◌, ◌<◌, ◌≤◌, length, drop};
ghost use Rattle.rules.specs.Holds.{most_relations};
ghost use Rattle.rules.specs.Chain.{chain, places_of};
ghost use Rattle.rules.specs.Shapes.Good.{Good};

use crate::stops::{Visits, Walk};
use rules::{Marking, Table};

// An excluded event opens nothing.
pub fn listed(t: &Table, m: &Marking, event: usize, list: &mut [u16]) -> usize
    requires good { Good t.now m.now × (event < t.now.events) }
    requires most_relations_in_bounds { most_relations ≤ length list.old }
    ensures count { result ≡ length (chain t.now m.now event) }
    ensures list { list.new ≡ places_of (chain t.now m.now event) ++ drop (length (chain t.now m.now event)) list.old }
{
    if !m.records[event].included {
        return 0;
    }
    let visits = Visits::of(t, m);
    let mut walk = Walk {
        opened: 0,
        count: 0,
    };
    visits.event(event, 0, &mut walk, list);
    walk.count
}
