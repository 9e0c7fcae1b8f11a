// The calls that a monitor's firmware makes from C: byte images, lent buffers and numbers in, the number of the refusal out. `include/duty.h`
// says in words what each promises.
#![tactic(auto)]

mod acting;
mod asking;
mod building;
mod guarding;
mod images;
mod offering;
mod placing;
mod telling;
mod verdict;

ghost use Rattle.std.specs.Prelude.{◌≡◌, ◌++◌, ◌*◌, ltb, length, drop};
ghost use Rattle.rules.specs.Numbers.{◌if◌, ◌else◌, done};
ghost use Rattle.rules.specs.EventSet.{size_of, lowest_of};
ghost use Rattle.rules.specs.Fields.{bit};
ghost use Rattle.rules.specs.Image.{read_table, class_byte, record_bytes, marking_image, fresh};
ghost use Rattle.rules.specs.Carrying.{carry_number, carry_marking};
ghost use Rattle.rules.specs.Enabled.{enabled_answer};
ghost use Rattle.rules.specs.Happen.{happen};
ghost use Rattle.rules.specs.Time.{due_answer, plain_tick};
ghost use Rattle.rules.specs.Margin.{told_margin};
ghost use Rattle.rules.specs.HoldUp.{told_hold_up};
ghost use Rattle.rules.specs.Chain.{chain_answer, chain_list};
ghost use Rattle.rules.specs.Closure.{closure_answer};
ghost use Rattle.rules.specs.Check.{told_check};
ghost use Rattle.rules.specs.Guard.{caused as causedEvents, guarded_tick};
ghost use Rattle.rules.specs.Remedy.{remedy};
ghost use Rattle.rules.specs.Sleep.{sleep_answer, sleep_list};
ghost use Rattle.rules.specs.Quiet.{quiet_answer};
ghost use Rattle.rules.specs.Trace.{run_bytes, run_bytes_answers};
ghost use Rattle.rules.specs.Images.{table_of, images_number, on, put_back, verdict_told, guard_number, fields_number, fields_told};
ghost use Rattle.rules.specs.Building.{build_number, build, relation_told_number, relation_told, class_told_number};

use rules::Marking;

// The number that reading both images gives.
#[unsafe(no_mangle)]
pub extern "C" fn duty_judge(table: &[u8], marking: &[u8]) -> u8
    ensures { result ≡ images_number table.now marking.now }
{
    telling::number(&images::on(table, marking, |_| Ok(())))
}

// A fresh marking's image, into the first bytes of the buffer.
#[unsafe(no_mangle)]
pub extern "C" fn duty_fresh(events: usize, marking: &mut [u8]) -> u8
    ensures number { result ≡ ((fresh events).number else 14 if ltb (length marking.old) (record_bytes * events)) }
    ensures marking { marking.new ≡ done result (marking_image (fresh events).marking ++ drop (record_bytes * events) marking.old)
        marking.old }
{
    acting::put_back(&Marking::fresh(events), marking)
}

// An image of the time before counts, carried over into the first bytes of the buffer.
#[unsafe(no_mangle)]
pub extern "C" fn duty_carry(events: usize, old: &[u8], marking: &mut [u8]) -> u8
    ensures number { result ≡ carry_number events old.now (length marking.old) }
    ensures marking { marking.new ≡ carry_marking events old.now marking.old }
{
    telling::number(&image::carry_marking(events, old, marking))
}

// A table's image, built from plain numbers: firm, 0 or 1, a class byte for each event, five numbers for each relation.
#[unsafe(no_mangle)]
pub extern "C" fn duty_write_table(
    events: usize,
    firm: u32,
    classes: &[u8],
    relations: &[u32],
    table: &mut [u8],
) -> u8
    ensures number { result ≡ build_number events firm classes.now relations.now (length table.old) }
    ensures table { table.new ≡ build events firm classes.now relations.now table.old }
{
    telling::number(&building::write(events, firm, classes, relations, table))
}

// A relation of a table: its five numbers.
#[unsafe(no_mangle)]
pub extern "C" fn duty_relation(table: &[u8], relation: usize, numbers: &mut [u32]) -> u8
    ensures number { result ≡ relation_told_number table.now relation (length numbers.old) }
    ensures numbers { numbers.new ≡ relation_told table.now relation numbers.old }
{
    placing::tell(asking::relation(table, relation), numbers)
}

// The class of an event: its byte, as the image has it.
#[unsafe(no_mangle)]
pub extern "C" fn duty_class(table: &[u8], event: usize, byte: &mut u8) -> u8
    ensures number { result ≡ class_told_number table.now event }
    ensures byte { byte.new ≡ done result (class_byte (table_of table.now) event) byte.old }
{
    telling::tell(asking::class(table, event), byte)
}

// Whether the table is firm: 1, or 0.
#[unsafe(no_mangle)]
pub extern "C" fn duty_firm(table: &[u8], firm: &mut u32) -> u8
    ensures number { result ≡ (read_table table.now).number }
    ensures firm { firm.new ≡ done result (bit (table_of table.now).firm) firm.old }
{
    telling::tell(asking::firm(table), firm)
}

// The record of an event: its seven fields, in the image's order.
#[unsafe(no_mangle)]
pub extern "C" fn duty_record(table: &[u8], marking: &[u8], event: usize, fields: &mut [u32]) -> u8
    ensures number { result ≡ fields_number table.now marking.now event (length fields.old) }
    ensures fields { fields.new ≡ fields_told table.now marking.now event fields.old }
{
    placing::tell(asking::record(table, marking, event), fields)
}

// How many events a set holds.
#[unsafe(no_mangle)]
pub extern "C" fn duty_size(set: u64) -> u32
    ensures { result ≡ size_of set }
{
    engine::size(set)
}

// The lowest event of a set, 64 for none.
#[unsafe(no_mangle)]
pub extern "C" fn duty_lowest(set: u64) -> u32
    ensures { result ≡ lowest_of set }
{
    engine::lowest(set)
}

// Whether an event is enabled: 1, or 0.
#[unsafe(no_mangle)]
pub extern "C" fn duty_enabled(table: &[u8], marking: &[u8], event: usize, enabled: &mut u8) -> u8
    ensures number { result
        ≡ (images_number table.now marking.now else (on enabled_answer table.now marking.now event).number) }
    ensures enabled { enabled.new ≡ done result (bit (on enabled_answer table.now marking.now event).enabled)
        enabled.old }
{
    let answer = images::on(table, marking, |i| {
        engine::enabled(i.table, i.marking, event)
    });
    telling::tell(answer.map(u8::from), enabled)
}

// The due events.
#[unsafe(no_mangle)]
pub extern "C" fn duty_due(table: &[u8], marking: &[u8], set: &mut u64) -> u8
    ensures number { result
        ≡ (images_number table.now marking.now else (on due_answer table.now marking.now).number) }
    ensures set { set.new ≡ done result (on due_answer table.now marking.now).set set.old }
{
    let answer = images::on(table, marking, |i| engine::due(i.table, i.marking));
    telling::tell(answer, set)
}

// An event happens: whatever its class, it is executed, if enabled.
#[unsafe(no_mangle)]
pub extern "C" fn duty_happen(table: &[u8], marking: &mut [u8], event: usize) -> u8
    ensures number { result
        ≡ (images_number table.now marking.old else (on happen table.now marking.old event).number) }
    ensures marking { marking.new ≡ put_back result (on happen table.now marking.old event).marking marking.old }
{
    let answer = images::on(table, &marking[..], |i| {
        engine::happen(i.table, i.marking, event)
    });
    acting::put_back(&answer, marking)
}

// One tick passes, unless an event is due.
#[unsafe(no_mangle)]
pub extern "C" fn duty_plain_tick(table: &[u8], marking: &mut [u8]) -> u8
    ensures number { result
        ≡ (images_number table.now marking.old else (on plain_tick table.now marking.old).number) }
    ensures marking { marking.new ≡ put_back result (on plain_tick table.now marking.old).marking marking.old }
{
    let answer = images::on(table, &marking[..], |i| {
        engine::plain_tick(i.table, i.marking)
    });
    acting::put_back(&answer, marking)
}

// The margin of a condition: its kind, and the ticks.
#[unsafe(no_mangle)]
pub extern "C" fn duty_margin(
    table: &[u8],
    marking: &[u8],
    relation: usize,
    kind: &mut u8,
    ticks: &mut i32,
) -> u8
    ensures number { result ≡ (images_number table.now marking.now
        else (on told_margin table.now marking.now relation).number) }
    ensures kind { kind.new ≡ done result (on told_margin table.now marking.now relation).kind kind.old }
    ensures ticks { ticks.new ≡ done result (on told_margin table.now marking.now relation).ticks ticks.old }
{
    let answer = images::on(table, marking, |i| {
        engine::margin(i.table, i.marking, relation)
    });
    telling::tell_both(answer.map(telling::margin), kind, ticks)
}

// What holds an event up: its kind, and the relation.
#[unsafe(no_mangle)]
pub extern "C" fn duty_hold_up(
    table: &[u8],
    marking: &[u8],
    event: usize,
    kind: &mut u8,
    relation: &mut usize,
) -> u8
    ensures number { result ≡ (images_number table.now marking.now
        else (on told_hold_up table.now marking.now event).number) }
    ensures kind { kind.new ≡ done result (on told_hold_up table.now marking.now event).kind kind.old }
    ensures relation { relation.new ≡ done result
        (on told_hold_up table.now marking.now event).relation relation.old }
{
    let answer = images::on(table, marking, |i| {
        engine::hold_up(i.table, i.marking, event)
    });
    telling::tell_both(answer.map(telling::hold_up), kind, relation)
}

// Every relation that stands in an event's way, into the first places of the list: 256 times its number, and its depth; and how many.
#[unsafe(no_mangle)]
pub extern "C" fn duty_chain(
    table: &[u8],
    marking: &[u8],
    event: usize,
    list: &mut [u16],
    count: &mut usize,
) -> u8
    ensures number { result ≡ (images_number table.now marking.now
        else (on chain_answer table.now marking.now event (length list.old)).number) }
    ensures list { list.new ≡ done result
        (on chain_list table.now marking.now event list.old) list.old }
    ensures count { count.new ≡ done result
        (on chain_answer table.now marking.now event (length list.old)).count count.old }
{
    let answer = images::on_lent(table, marking, list, |i, list| {
        chain::chain(i.table, i.marking, event, list)
    });
    telling::tell(answer, count)
}

// The closure and its size, also where the check rejects.
#[unsafe(no_mangle)]
pub extern "C" fn duty_closure(table: &[u8], marking: &[u8], set: &mut u64, size: &mut u32) -> u8
    ensures number { result
        ≡ (images_number table.now marking.now else (on closure_answer table.now marking.now).number) }
    ensures set { set.new ≡ done result (on closure_answer table.now marking.now).set set.old }
    ensures size { size.new ≡ done result (on closure_answer table.now marking.now).size size.old }
{
    let answer = images::on(table, marking, |i| engine::closure(i.table, i.marking));
    telling::tell_both(answer.map(telling::closure), set, size)
}

// The static check: reason and place, where the images are read.
#[unsafe(no_mangle)]
pub extern "C" fn duty_check(table: &[u8], marking: &[u8], reason: &mut u8, place: &mut usize) -> u8
    ensures number { result ≡ (images_number table.now marking.now
        else (on told_check table.now marking.now).number) }
    ensures reason { reason.new ≡ done (images_number table.now marking.now)
        (on told_check table.now marking.now).reason reason.old }
    ensures place { place.new ≡ done (images_number table.now marking.now)
        (on told_check table.now marking.now).place place.old }
{
    let answer = images::on(table, marking, |i| engine::check(i.table, i.marking));
    verdict::tell(&answer, reason, place)
}

// The needed events are executed in order and one tick passes, unless the check rejects.
#[unsafe(no_mangle)]
pub extern "C" fn duty_guarded_tick(
    table: &[u8],
    marking: &mut [u8],
    caused: &mut [u8],
    count: &mut usize,
    reason: &mut u8,
    place: &mut usize,
) -> u8
    ensures number { result
        ≡ (guard_number table.now marking.old (length caused.old)
        else (on guarded_tick table.now marking.old).number) }
    ensures marking { marking.new ≡ put_back result (on guarded_tick table.now marking.old).marking marking.old }
    ensures caused { caused.new ≡ done result
        (on causedEvents table.now marking.old
        ++ drop (length (on causedEvents table.now marking.old)) caused.old) caused.old }
    ensures count { count.new ≡ done result (length (on causedEvents table.now marking.old)) count.old }
    ensures reason { reason.new ≡ done (guard_number table.now marking.old (length caused.old))
        (on guarded_tick table.now marking.old).reason reason.old }
    ensures place { place.new ≡ done (guard_number table.now marking.old (length caused.old))
        (on guarded_tick table.now marking.old).place place.old }
{
    let answer = guarding::guarded_tick(table, &marking[..], caused.len());
    if let Ok(guarded) = &answer {
        *count = guarded.count;
        placing::put(&guarded.caused[..guarded.count], caused);
        acting::put(&guarded.marking, marking);
    }
    verdict::tell(&answer, reason, place)
}

// So many guarded ticks in one call. What they caused goes into the first places of the list: 256 times the number of the tick before which an
// event was caused, and the event; and how many.
#[unsafe(no_mangle)]
pub extern "C" fn duty_sleep(
    table: &[u8],
    marking: &mut [u8],
    ticks: usize,
    list: &mut [u32],
    count: &mut usize,
    reason: &mut u8,
    place: &mut usize,
) -> u8
    ensures number { result ≡ (images_number table.now marking.old
        else (on sleep_answer table.now marking.old ticks (length list.old)).number) }
    ensures marking { marking.new ≡ put_back result
        (on sleep_answer table.now marking.old ticks (length list.old)).marking marking.old }
    ensures list { list.new ≡ done result
        (on sleep_list table.now marking.old ticks list.old) list.old }
    ensures count { count.new ≡ done result
        (on sleep_answer table.now marking.old ticks (length list.old)).count count.old }
    ensures reason { reason.new ≡ done (images_number table.now marking.old) (verdict_told result
        (on sleep_answer table.now marking.old ticks (length list.old)).reason reason.old) reason.old }
    ensures place { place.new ≡ done (images_number table.now marking.old) (verdict_told result
        (on sleep_answer table.now marking.old ticks (length list.old)).place place.old) place.old }
{
    let answer = images::on_lent(table, &marking[..], list, |i, list| {
        sleep::sleep(i.table, i.marking, ticks, list)
    });
    if let Ok(slept) = &answer {
        *count = slept.count;
        acting::put(&slept.marking, marking);
    }
    verdict::tell(&answer, reason, place)
}

// How many guarded ticks can pass before one finds an event due.
#[unsafe(no_mangle)]
pub extern "C" fn duty_quiet(table: &[u8], marking: &[u8], ticks: &mut usize) -> u8
    ensures number { result ≡ (images_number table.now marking.now
        else (on quiet_answer table.now marking.now).number) }
    ensures ticks { ticks.new ≡ done result
        (on quiet_answer table.now marking.now).ticks ticks.old }
{
    let answer = images::on(table, marking, |i| sleep::quiet(i.table, i.marking));
    telling::tell(answer, ticks)
}

// Of two offered lists the shortest start that discharges: which list, 0 preferred or 1 fallback, and how long.
#[unsafe(no_mangle)]
pub extern "C" fn duty_remedies(
    table: &[u8],
    marking: &[u8],
    preferred: &[u8],
    fallback: &[u8],
    list: &mut u8,
    length: &mut usize,
) -> u8
    ensures number { result
        ≡ (images_number table.now marking.now
        else (on remedy table.now marking.now preferred.now fallback.now).number) }
    ensures list { list.new ≡ done result
        (bit (on remedy table.now marking.now preferred.now fallback.now).fallback) list.old }
    ensures length { length.new ≡ done result
        (on remedy table.now marking.now preferred.now fallback.now).length length.old }
{
    let answer = images::on(
        table,
        marking,
        |i| offering::remedies(i, preferred, fallback),
    );
    telling::tell_both(answer, list, length)
}

// A trace of steps of 2 bytes, kind and event; one answer byte per step.
#[unsafe(no_mangle)]
pub extern "C" fn duty_run(table: &[u8], marking: &mut [u8], steps: &[u8], answers: &mut [u8]) -> u8
    ensures number { result
        ≡ (images_number table.now marking.old
        else (on run_bytes table.now marking.old steps.now (length answers.old)).number) }
    ensures marking { marking.new ≡ put_back result
        (on run_bytes table.now marking.old steps.now (length answers.old)).marking marking.old }
    ensures answers { answers.new ≡ done result
        (on run_bytes_answers table.now marking.old steps.now answers.old) answers.old }
{
    let answer = images::on_lent(table, &marking[..], answers, |i, answers| {
        engine::run_bytes(i.table, i.marking, steps, answers)
    });
    acting::put_back(&answer, marking)
}
