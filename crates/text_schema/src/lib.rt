// Lines by a schema of numbers: the keys, each ended by `=`, as one byte string, and the least and the greatest number of each.
#![tactic(auto)]

ghost use Rattle.text_schema.specs.Schema.{LinesRead};

use text_line::line::{line_value, value_fault};
use text_line::piece::{part, piece_end};
use text_number::{number_of, number_refusal};
use text_refusal::refusal::Fault;

// The lines that are due at a position, each a number under its key within its bounds, into the first places of `out`: as many lines as there are keys,
// bounds and places. Keys and bounds stay apart: `LinesRead` answers for slices of unequal lengths too.
#[tactic(auto, using(crate::proofs::Schemas::lines_start, crate::proofs::Schemas::lines_full, crate::proofs::Schemas::lines_keys))]
pub fn read_lines(
    text: &[u8],
    at: usize,
    keys: &[u8],
    lows: &[i64],
    highs: &[i64],
    out: &mut [i64],
) -> Result<usize, Fault>
    ensures { LinesRead text.now at keys.now lows.now highs.now out.old out.new result }
{
    let lines = out.len().min(lows.len().min(highs.len()));
    let mut next = at;
    let mut from: usize = 0;
    for i in 0..lines {
        let end = piece_end(keys, from, b'=');
        if end == from {
            return Ok(next);
        }
        let key = part(keys, from, end);
        let value = line_value(text, next, key);
        let n = number_of(value, lows[i], highs[i]);
        let Ok(z) = n else {
            return Err(value_fault(text, next, key, number_refusal(n)));
        };
        out[i] = z;
        next += key.len() + value.len() + 1;
        from = end;
    }
    Ok(next)
}
