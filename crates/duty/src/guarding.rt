// A guarded tick whose caused events go into a lent buffer.
ghost use Rattle.std.specs.Prelude.{◌≡◌, ◌≢◌};
ghost use Rattle.rules.specs.declared.verdict.CheckError.TheVariants.{Refused};
ghost use Rattle.rules.specs.Results.{as_guarded};
ghost use Rattle.rules.specs.Guard.{guarded_tick};
ghost use Rattle.rules.specs.Images.{marking_of, on, guard_number};
ghost use Rattle.duty.specs.Reading.{Refuses};

use rules::{CheckError, Guarded, Marking, Refusal, Table};

// In a frame of its own, beside that of the reading.
#[inline(never)]
fn ticked(t: &Table, m: &Marking) -> Result<Guarded, CheckError>
    ensures { as_guarded m.now result ≡ guarded_tick t.now m.now }
{
    engine::guarded_tick(t, m)
}

// Each event is caused at most once, so there is room where the buffer has a byte for each.
pub fn guarded_tick(table: &[u8], marking: &[u8], room: usize) -> Result<Guarded, CheckError>
    ensures early { let number = guard_number table.now marking.now room in
        number ≢ 0 → Refuses (λ refusal error. error ≡ Refused refusal) number result }
    ensures ticked { guard_number table.now marking.now room ≡ 0
        → as_guarded (marking_of table.now marking.now) result ≡ on guarded_tick table.now marking.now }
{
    let t = image::read_table(table)?;
    let m = image::read_marking(t.events, marking)?;
    if room < t.events {
        return Err(CheckError::Refused(Refusal::Room));
    }
    ticked(&t, &m)
}
