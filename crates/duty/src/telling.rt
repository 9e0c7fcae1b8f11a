// One way to answer C: what a call that is done says goes into the lent places, and a refusal leaves them; the number is handed back.
ghost use Rattle.std.specs.Prelude.{◌≡◌};
ghost use Rattle.rules.specs.Numbers.{margin_in_numbers, hold_up_in_numbers};
ghost use Rattle.rules.specs.Results.{number_of, value_or, as_margin_of, as_hold_up_of};

use rules::{Closure, HoldUp, Margin, Refusal};

pub fn number<A>(answer: &Result<A, Refusal>) -> u8
    ensures { result ≡ number_of answer.now }
{
    match answer {
        Ok(_) => 0,
        Err(refusal) => u8::from(*refusal),
    }
}

pub fn tell<A: Copy>(answer: Result<A, Refusal>, place: &mut A) -> u8
    ensures number { result ≡ number_of answer }
    ensures place { place.new ≡ value_or place.old answer }
{
    match answer {
        Ok(value) => {
            *place = value;
            0
        }
        Err(refusal) => u8::from(refusal),
    }
}

pub fn tell_both<A: Copy, B: Copy>(
    answer: Result<(A, B), Refusal>,
    first: &mut A,
    second: &mut B,
) -> u8
    ensures number { result ≡ number_of answer }
    ensures first { first.new ≡ (value_or (first.old, second.old) answer).0 }
    ensures second { second.new ≡ (value_or (first.old, second.old) answer).1 }
{
    match answer {
        Ok((one, other)) => {
            *first = one;
            *second = other;
            0
        }
        Err(refusal) => u8::from(refusal),
    }
}

// The kind of a margin, and the ticks.
pub fn margin(margin: Margin) -> (u8, i32)
    ensures { let told = margin_in_numbers (as_margin_of margin) in result ≡ (told.kind, told.ticks) }
{
    match margin {
        Margin::NotACondition => (0, 0),
        Margin::Ignored(None) => (1, 0),
        Margin::Counts(None) => (2, 0),
        Margin::Counts(Some(ticks)) => (3, ticks),
        Margin::Ignored(Some(ticks)) => (4, ticks),
    }
}

// The kind of a hold-up, and the relation.
pub fn hold_up(hold_up: HoldUp) -> (u8, usize)
    ensures { let told = hold_up_in_numbers (as_hold_up_of hold_up) in result ≡ (told.kind, told.relation) }
{
    match hold_up {
        HoldUp::Enabled => (0, 0),
        HoldUp::Excluded => (1, 0),
        HoldUp::Blocked(relation) => (2, relation),
        HoldUp::EnabledUnless(relation) => (3, relation),
    }
}

pub fn closure(closure: Closure) -> (u64, u32)
    ensures { result ≡ (closure.set, closure.size) }
{
    (closure.set, closure.size)
}
