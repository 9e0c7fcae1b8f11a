// The images that a call is handed, and what a rule answers of them.
ghost use Rattle.std.specs.Prelude.{◌≡◌, ◌≢◌};
ghost use Rattle.rules.specs.Images.{table_of, marking_of, images_number};
ghost use Rattle.duty.specs.Reading.{Refuses, Returns, ReturnsLent};

use rules::{Marking, Refusal, Table};

// What is read of them stays where it is read, and is lent: a copy costs stack and instructions.
#[derive(Clone, Copy)]
pub struct Images<'a> {
    pub table: &'a Table,
    pub marking: &'a Marking,
}

// A rule has a frame of its own, beside that of the reading: C is promised how much stack a call takes.
#[inline(never)]
fn ask<A, E, F: FnOnce(Images<'_>) -> Result<A, E>>(rule: F, images: Images<'_>) -> Result<A, E>
    requires { F.IsAlwaysCallable rule }
    ensures { Returns F.FnOnce rule images.entry.table.now images.entry.marking.now result }
{
    rule(images)
}

#[inline(never)]
fn ask_lent<A, E, T, F: FnOnce(Images<'_>, &mut [T]) -> Result<A, E>>(
    rule: F,
    images: Images<'_>,
    list: &mut [T],
) -> Result<A, E>
    requires { F.IsAlwaysCallable rule }
    ensures { ReturnsLent F.FnOnce rule images.entry.table.now images.entry.marking.now list.old result list.new }
{
    rule(images, list)
}

// A rule is asked of what is read, the table first, and of nothing where reading is refused.
pub fn on<A, E: From<Refusal>, F: FnOnce(Images<'_>) -> Result<A, E>>(
    table: &[u8],
    marking: &[u8],
    rule: F,
) -> Result<A, E>
    requires { F.IsAlwaysCallable rule }
    ensures unread { images_number table.now marking.now ≢ 0 → Refuses E.from_gives (images_number table.now marking.now) result }
    ensures ruled { images_number table.now marking.now ≡ 0
        → Returns F.FnOnce rule (table_of table.now) (marking_of table.now marking.now) result }
{
    let table = image::read_table(table)?;
    let marking = image::read_marking(table.events, marking)?;
    ask(
        rule,
        Images {
            table: &table,
            marking: &marking,
        },
    )
}

// The same of a rule that is lent a list besides: after a call nothing is known of a list that its closure captured.
pub fn on_lent<A, E: From<Refusal>, T, F: FnOnce(Images<'_>, &mut [T]) -> Result<A, E>>(
    table: &[u8],
    marking: &[u8],
    list: &mut [T],
    rule: F,
) -> Result<A, E>
    requires { F.IsAlwaysCallable rule }
    ensures unread { images_number table.now marking.now ≢ 0 → Refuses E.from_gives (images_number table.now marking.now) result }
    ensures left { images_number table.now marking.now ≢ 0 → list.new ≡ list.old }
    ensures ruled { images_number table.now marking.now ≡ 0
        → ReturnsLent F.FnOnce rule (table_of table.now) (marking_of table.now marking.now) list.old result list.new }
{
    let t = image::read_table(table)?;
    let m = image::read_marking(t.events, marking)?;
    ask_lent(
        rule,
        Images {
            table: &t,
            marking: &m,
        },
        list,
    )
}
