// Numbers: decimal digits, `-` in front if below zero, no leading zero, no `-0`, however many digits.
#![tactic(auto)]

pub mod marked;
mod natural;

ghost use Rattle.std.specs.Prelude.{◌≡◌, ◌≤◌};
ghost use Rattle.std.proofs.Math.Option.{some};
ghost use Rattle.text_number.specs.Number.{number_in, number_refusal, in_range, ranged};
ghost use Rattle.text_number.specs.internal.Natural.{signed, signed_number, is_outside};

use crate::natural::natural_of;

// Why the bytes of a value are no number of its range: they write one outside it (7), or none, since it is badly written (6).
#[derive(Clone, Copy)]
pub enum NumberError {
    Outside,
    Malformed,
}

// The number of the refusal; 0 where the number is taken, and no Option: the definition has the 0, and so do the contracts of those that write such numbers.
pub fn number_refusal<T: Copy>(n: Result<T, NumberError>) -> u64
    ensures { result ≡ number_refusal n }
{
    match n {
        Ok(_) => 0,
        Err(NumberError::Outside) => 7,
        Err(NumberError::Malformed) => 6,
    }
}

// A number from its sign and its distance.
// Sign and distance stay two values from here on: together they may be beyond every i64, and a struct of both would be made and taken apart at once.
fn signed(negative: bool, distance: u64) -> i64
    requires { distance ≤ 9223372036854775807 }
    ensures { result ≡ signed negative distance }
{
    let value = distance as i64;
    if negative {
        return -1 - value;
    }
    value
}

// Whether a number is outside a range; one that no machine number equals is outside every range.
// Low and high stay two numbers from here on: docs/STATEMENTS.md names `number_of`, whose definition takes them so.
#[tactic(auto, using(crate::proofs::Numbers::far_outside))]
fn is_outside(negative: bool, distance: u64, low: i64, high: i64) -> bool
    ensures { result ≡ is_outside low high (signed negative distance) }
{
    if 9223372036854775807 < distance {
        return true;
    }
    let value = signed(negative, distance);
    if value < low {
        return true;
    }
    high < value
}

// A number against its range.
fn in_range(negative: bool, distance: u64, low: i64, high: i64) -> Result<i64, NumberError>
    ensures { result ≡ in_range low high (signed negative distance) }
{
    if is_outside(negative, distance, low, high) {
        return Err(NumberError::Outside);
    }
    Ok(signed(negative, distance))
}

// A number by its sign and magnitude; `-0` is none.
fn ranged(negative: bool, magnitude: u64, low: i64, high: i64) -> Result<i64, NumberError>
    ensures { result ≡ ranged low high (signed_number negative (some magnitude)) }
{
    if negative {
        if magnitude == 0 {
            return Err(NumberError::Malformed);
        }
        return in_range(true, magnitude - 1, low, high);
    }
    in_range(false, magnitude, low, high)
}

// The bytes of a value, read as a number from low to high. Inlined into the loops that read lines: where it is called, its answer goes through memory,
// and a snapshot takes a tenth longer to read.
#[inline(always)]
#[tactic(auto, using(crate::proofs::Numbers::number_none))]
pub fn number_of(value: &[u8], low: i64, high: i64) -> Result<i64, NumberError>
    ensures { result ≡ number_in low high value.now }
{
    if value.is_empty() {
        return Err(NumberError::Malformed);
    }
    if value[0] == b'-' {
        let magnitude = natural_of(&value[1..])?;
        return ranged(true, magnitude, low, high);
    }
    let magnitude = natural_of(value)?;
    ranged(false, magnitude, low, high)
}
