// A table made of plain numbers. No number is cut down to its field before it is judged: one that does not fit is held as one that the judge
// refuses for the same reason.
ghost use Rattle.std.specs.Prelude.{◌≡◌, ◌+◌, ◌*◌, ◌/◌, ◌≤◌, ◌<◌, length, eqb};
ghost use Rattle.rules.specs.Holds.{most_relations};
ghost use Rattle.rules.specs.Results.{number_of};
ghost use Rattle.rules.specs.Building.{build_number, build};
ghost use Rattle.duty.specs.Making.{counts_number, held as heldNumber, held_time, held_relation, held_relations};

use rules::{Refusal, Relation, Table};

// How many there are: too few or too many, then a class byte or a relation's number too few or too many.
fn counts(events: usize, classes: usize, numbers: usize) -> Result<(), Refusal>
    ensures { number_of result ≡ counts_number events classes numbers }
{
    if events < 1 || Table::MOST_EVENTS < events || Table::MOST_RELATIONS < numbers / 5 {
        return Err(Refusal::Counts);
    }
    if classes != events || numbers % 5 != 0 {
        return Err(Refusal::Length);
    }
    Ok(())
}

// A number in a byte. 255 is no kind and no event, and nor is any number above it.
#[tactic(auto, unfolding(crate::specs::Making::held))]
fn held(n: u32) -> u8
    ensures { result ≡ heldNumber n }
{
    n.min(255) as u8
}

// A time. Where bounded is neither 0 nor 1 it is one above the limit, which no kind takes.
#[tactic(auto, unfolding(crate::specs::Making::held_time))]
fn held_time(bounded: u32, time: u32) -> u32
    ensures { result ≡ held_time bounded time }
{
    if 1 < bounded { u32::MAX } else { time }
}

// Relation k, of its five numbers.
#[tactic(auto, unfolding(crate::specs::Making::held_relation))]
fn relation_from(numbers: &[u32], k: usize) -> Relation
    requires { 5 * k + 5 ≤ length numbers.now }
    ensures { result ≡ held_relation numbers.now k }
{
    let at = 5 * k;
    let bounded = numbers[at + 3];
    Relation {
        kind: held(numbers[at]),
        left: held(numbers[at + 1]),
        right: held(numbers[at + 2]),
        bounded: bounded == 1,
        time: held_time(bounded, numbers[at + 4]),
    }
}

// The relations, not judged yet; unused places are empty.
fn relations_from(numbers: &[u32]) -> [Relation; Table::MOST_RELATIONS]
    requires { length numbers.now / 5 ≤ most_relations }
    ensures { result ≡ held_relations numbers.now }
{
    let mut relations = [Relation::EMPTY; Table::MOST_RELATIONS];
    for k in 0..numbers.len() / 5 {
        relations[k] = relation_from(numbers, k);
    }
    relations
}

// The table's image into the first bytes of the buffer; a refusal leaves every byte.
pub fn write(
    events: usize,
    firm: u32,
    classes: &[u8],
    numbers: &[u32],
    table: &mut [u8],
) -> Result<(), Refusal>
    ensures number { number_of result ≡ build_number events firm classes.now numbers.now (length table.old) }
    ensures table { table.new ≡ build events firm classes.now numbers.now table.old }
{
    if 1 < firm {
        return Err(Refusal::SpareBit);
    }
    counts(events, classes.len(), numbers.len())?;
    let sets = image::classes_from(classes)?;
    let t = Table {
        relations: relations_from(numbers),
        controllable: sets.controllable,
        causable: sets.causable,
        events,
        count: numbers.len() / 5,
        firm: firm == 1,
    };
    image::write_table(&t, table)
}
