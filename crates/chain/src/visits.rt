// Event visit and relation visit, which call each other: an event is opened once, so the number of unopened events falls. They go by what is
// told here of each event and relation, so that no table and no marking stands in a visit's frame.
ghost use Rattle.std.specs.Prelude.{◌≡◌, true, ℕ, suc, ◌+◌, ◌<◌, ◌≤◌, length};
ghost use Rattle.rules.specs.declared.Table.{Table as Tabled};
ghost use Rattle.rules.specs.declared.Marking.{Marking as Marked};
ghost use Rattle.rules.specs.EventSet.{size_of};
ghost use Rattle.rules.specs.Holds.{relation_of, record_of};
ghost use Rattle.rules.specs.Chain.{visit, led_to};
ghost use Rattle.rules.specs.Shapes.Good.{Good};
ghost use Rattle.chain.specs.Visits.{VisitsOf, state_of, carried};

use crate::stops::{Stop, Visits, Walk};
use acts::blocking::stops as blocks;
use acts::event_set::{adding, has_event};
use rules::{Marking, Table};

impl Visits {
    // In one pass over the relations, from the last to the first.
    pub fn of(t: &Table, m: &Marking) -> Visits
        requires { Good t.now m.now }
        ensures { VisitsOf t.now m.now result }
    {
        let mut firsts = [None; 64];
        let mut stops = [Stop::NONE; 256];
        for i in (0..t.count).rev() {
            let k = t.relations[i];
            let r = m.records[k.right as usize];
            let next = if blocks(k, r, false) {
                firsts[k.left as usize].replace(i as u8)
            } else {
                None
            };
            stops[i] = Stop {
                right: k.right,
                next,
            };
        }
        Visits { firsts, stops }
    }

    // Opens e, unless it is open, and visits its blocking relations in order.
    #[cycle(visit)]
    pub fn event(&self, e: usize, depth: u8, walk: &mut Walk, list: &mut [u16])
        requires { (e < 64) × (depth ≤ size_of walk.old.opened) }
        ensures kept { length list.new ≡ length list.old }
        ensures grows { size_of walk.old.opened ≤ size_of walk.new.opened }
        ensures visits { (t : Tabled) (m : Marked) → VisitsOf t m self.now
            → (record_of m e).included ≡ true → (f : ℕ) → 64 ≤ f + size_of walk.old.opened
            → state_of walk.new list.new ≡ carried (visit t m f depth e walk.old.opened) (state_of walk.old list.old) }
    {
        if has_event(walk.opened, e) {
            return;
        }
        walk.opened = adding(walk.opened, e);
        let mut next = self.firsts[e];
        while let Some(k) = next {
            self.relation(k, depth, walk, list);
            next = self.stops[k as usize].next;
        }
    }

    // Notes relation k, and visits its right event.
    #[cycle(visit)]
    fn relation(&self, k: u8, depth: u8, walk: &mut Walk, list: &mut [u16])
        requires { depth + 1 ≤ size_of walk.old.opened }
        ensures kept { length list.new ≡ length list.old }
        ensures grows { size_of walk.old.opened ≤ size_of walk.new.opened }
        ensures visits { (t : Tabled) (m : Marked) → VisitsOf t m self.now
            → k < t.count → (record_of m (relation_of t k).right).included ≡ true → (f : ℕ) → 64 ≤ f + size_of walk.old.opened
            → state_of walk.new list.new
            ≡ carried (led_to k depth (visit t m f (suc depth) (relation_of t k).right walk.old.opened)) (state_of walk.old list.old) }
    {
        if walk.count < list.len() {
            list[walk.count] = 256 * k as u16 + depth as u16;
            walk.count += 1;
        }
        let right = self.stops[k as usize].right as usize;
        self.event(right, depth + 1, walk, list);
    }
}
