// Numbers that may end in one `?` (63), by which a reading is marked suspect.
ghost use Rattle.std.specs.Prelude.{◌≡◌};
ghost use Rattle.text_number.specs.Marked.{with_mark, plain_number, marked_in};

use crate::{NumberError, number_of};
use text_line::piece::part;

// A number, and whether it is marked suspect.
#[derive(Clone, Copy)]
pub struct Marked {
    pub number: i64,
    pub suspect: bool,
}

// What was read of the digits, with a mark behind them or without one.
fn with_mark(n: Result<i64, NumberError>, suspect: bool) -> Result<Marked, NumberError>
    ensures { result ≡ with_mark suspect n }
{
    let number = n?;
    Ok(Marked { number, suspect })
}

// What was read where there is no mark.
pub fn plain_number(n: Result<i64, NumberError>) -> Result<Marked, NumberError>
    ensures { result ≡ plain_number n }
{
    with_mark(n, false)
}

// The bytes of a value, read as a number from low to high that may be marked.
// Low and high stay two numbers, as `number_of` takes them.
#[tactic(auto, using(crate::proofs::LastByte::last_byte))]
pub fn marked_of(value: &[u8], low: i64, high: i64) -> Result<Marked, NumberError>
    ensures { result ≡ marked_in low high value.now }
{
    if value.is_empty() {
        return Err(NumberError::Malformed);
    }
    if value[value.len() - 1] == 63 {
        return with_mark(number_of(part(value, 0, value.len() - 1), low, high), true);
    }
    plain_number(number_of(value, low, high))
}
