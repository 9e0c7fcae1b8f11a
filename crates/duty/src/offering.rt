// The offered lists: which has a start that discharges, and how long it is. C has the lists, so it is not handed the stretch itself.
ghost use Rattle.std.specs.Prelude.{◌≡◌, IfOk};
ghost use Rattle.rules.specs.Fields.{bit};
ghost use Rattle.rules.specs.Remedy.{remedy};
ghost use Rattle.rules.specs.Results.{number_of};

use super::images::Images;
use rules::Refusal;

// 0 for the preferred list, 1 for the fallback. A function, and no closure in the call: one that answers a `Remedy` the borrow checker does not cover.
pub fn remedies<'a>(
    i: Images<'_>,
    preferred: &'a [u8],
    fallback: &'a [u8],
) -> Result<(u8, usize), Refusal>
    ensures number { number_of result ≡ (remedy i.entry.table.now i.entry.marking.now preferred.now fallback.now).number }
    ensures start { let told = remedy i.entry.table.now i.entry.marking.now preferred.now fallback.now in
        IfOk result (λ r. r ≡ (bit told.fallback, told.length)) }
{
    let remedy = engine::remedies(i.table, i.marking, preferred, fallback)?;
    Ok((remedy.fallback as u8, remedy.start.len()))
}
