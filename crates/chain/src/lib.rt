// The chain of an event: every relation that stands in its way, and how deep.
#![tactic(auto)]

mod listing;
mod stops;
mod visits;

ghost use Rattle.std.specs.Prelude.{◌≡◌, length};
ghost use Rattle.rules.specs.Chain.{chain_answer, chain_list};
ghost use Rattle.rules.specs.Results.{as_chain};

use image::judging;
use rules::{Marking, Refusal, Table};

// Into the first places of the list: 256 times the relation's number, and its depth.
pub fn chain(t: &Table, m: &Marking, event: usize, list: &mut [u16]) -> Result<usize, Refusal>
    ensures answer { as_chain result ≡ chain_answer t.now m.now event (length list.old) }
    ensures list { list.new ≡ chain_list t.now m.now event list.old }
{
    judging::judge(t, m)?;
    judging::exists(event, t.events)?;
    if list.len() < Table::MOST_RELATIONS {
        return Err(Refusal::Room);
    }
    Ok(listing::listed(t, m, event, list))
}
