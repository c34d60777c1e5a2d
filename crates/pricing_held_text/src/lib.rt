// The text of a snapshot held as values: its length, and writing it into a lent buffer.
#![tactic(auto)]

mod lines;
mod numbers;
mod rows;
mod words;

ghost use Rattle.std.specs.Prelude.{◌≡◌};
ghost use Rattle.pricing_held_text.specs.Writing.{held_length, HeldWritten};

use crate::rows::{put_text, text_length};
use pricing_held::held_check;
use text_refusal::refusal::Refusal;

// The length of the text of a snapshot held as values, before it is written.
pub fn held_length(header: &[i64; 8], ids: &[u8], numbers: &[i64]) -> Result<usize, Refusal>
    ensures { result ≡ held_length header.now ids.now numbers.now }
{
    held_check(header, ids, numbers)?;
    Ok(text_length(header, ids, numbers))
}

// The text of a snapshot held as values, written to the front of a lent buffer; its length.
pub fn write_held(
    header: &[i64; 8],
    ids: &[u8],
    numbers: &[i64],
    buffer: &mut [u8],
) -> Result<usize, Refusal>
    ensures { HeldWritten header.now ids.now numbers.now buffer.old buffer.new result }
{
    let length = held_length(header, ids, numbers)?;
    if buffer.len() < length {
        return Err(Refusal {
            number: 14,
            line: 0,
        });
    }
    put_text(buffer, header, ids, numbers);
    Ok(length)
}
