// Ticks that pass over the words of table and marking, from the tick at which the marking was laid out. One loop counts what is caused and writes
// it: it is lent a list without places where nothing is to be written.
ghost use Rattle.std.specs.Prelude.{◌≡◌, List, [], ℕ, ◌<◌, ◌≤◌, ◌*◌, leb, length};
ghost use Rattle.rules.specs.declared.Record.{Record};
ghost use Rattle.rules.specs.declared.Marking.{Marking};
ghost use Rattle.rules.specs.declared.Table.{Table as Tabled};
ghost use Rattle.rules.specs.Sleep.{most_ticks, entry, slept_caused, place_of};
ghost use Rattle.acts.specs.Words.{WordsOf};
ghost use Rattle.sleep.specs.Passing.{put, noted, Passing};

use acts::marking_words::MarkingWords;
use acts::table_words::TableWords;
use duties::guard;
use rules::Table;

// A place of the list.
fn place(tick: u32, event: u8) -> u32
    requires { tick ≤ most_ticks }
    ensures { result ≡ place_of (entry tick event) }
{
    256 * tick + event as u32
}

// The caused events of a tick to the places of the list from `at` on, as far as it has them.
// Tried as a zip with the places' `iter_mut`: no invariant can speak of the list there, and the proof did not close.
fn note(list: &mut [u32], at: usize, tick: u32, caused: &[u8])
    requires { (length caused.now ≤ 64) × (tick ≤ most_ticks) × (at ≤ 64 * most_ticks) }
    ensures { list.new ≡ put at (noted tick caused.now) list.old }
{
    for (i, &event) in caused.iter().enumerate() {
        if at + i < list.len() {
            list[at + i] = place(tick, event);
        }
    }
}

// A run of ticks before which nothing falls due, in one go; and, if there is one more, the guarded tick that finds an event due. So many events
// were caused before, and so many are by then.
fn turn(
    table: &TableWords,
    marking: &mut MarkingWords,
    ticks: u32,
    list: &mut [u32],
    count: usize,
) -> usize
    requires { (marking.old.clock < ticks) × (ticks ≤ most_ticks) × (count ≤ 64 * marking.old.clock) }
    ensures kept { length list.new ≡ length list.old }
    ensures on { (marking.old.clock < marking.new.clock) × (marking.new.clock ≤ ticks) × (result ≤ 64 * marking.new.clock) }
    ensures passed { (t : Tabled) (tail : List Record) (m : Marking) (before : List ℕ) → WordsOf t table.now
        → Passing t tail m before marking.old count list.old → Passing t tail m before marking.new result list.new }
{
    marking.clock += marking.quiet(table.rows.head.events, ticks - marking.clock);
    if ticks <= marking.clock {
        return count;
    }
    let mut caused = [0; 64];
    let more = guard::guarded(table, marking, &mut caused);
    marking.pass_tick();
    note(list, count, marking.clock, &caused[..more]);
    count + more
}

// So many ticks; how many events are caused is the answer.
pub fn pass(table: &TableWords, marking: &mut MarkingWords, ticks: u32, list: &mut [u32]) -> usize
    requires { (marking.old.clock ≡ 0) × (ticks ≤ most_ticks) }
    ensures kept { length list.new ≡ length list.old }
    ensures clock { marking.new.clock ≡ ticks }
    ensures passed { (t : Tabled) (tail : List Record) (m : Marking) (before : List ℕ) → WordsOf t table.now
        → Passing t tail m before marking.old 0 list.old → Passing t tail m before marking.new result list.new }
{
    let mut count = 0;
    while marking.clock < ticks {
        count = turn(table, marking, ticks, list, count);
    }
    count
}

// Whether a list of so many places has room for what is caused. It is counted, on other words, unless every event would have room at every tick.
pub fn has_room(table: &TableWords, marking: &MarkingWords, ticks: u32, room: usize) -> bool
    requires { (marking.now.clock ≡ 0) × (ticks ≤ most_ticks) }
    ensures { (t : Tabled) (tail : List Record) (m : Marking) → WordsOf t table.now → Passing t tail m [] marking.now 0 []
        → result ≡ leb (length (slept_caused t m ticks)) room }
{
    if Table::MOST_EVENTS * ticks as usize <= room {
        return true;
    }
    let mut tried = *marking;
    pass(table, &mut tried, ticks, &mut []) <= room
}
