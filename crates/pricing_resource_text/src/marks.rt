// The numbers of a resource, all of which but its flag may be marked suspect.
ghost use Rattle.std.specs.Prelude.{◌≡◌};
ghost use Rattle.text_schema.specs.Schema.{keys_of};
ghost use Rattle.pricing_resource_text.specs.internal.Marks.{marked_or_flag, fields_of, FewLines, MarksRead};

use text_line::line::{line_value, value_fault};
use text_line::piece::{part, piece_end};
use text_number::marked::{Marked, marked_of, plain_number};
use text_number::{NumberError, number_of, number_refusal};
use text_refusal::refusal::Fault;
use text_schema::read_lines;

// Which of the numbers read are marked, and where their lines end. A struct of its own: `MarksRead` of the contracts names `marks`, which
// says what was read; a generic one would say `value`.
#[derive(Clone, Copy)]
pub(crate) struct MarkedLines {
    pub marks: u64,
    pub next: usize,
}

// The value of a flag, which carries no mark, or of a number that may be marked.
fn marked_or_flag(value: &[u8], low: i64, high: i64, flag: bool) -> Result<Marked, NumberError>
    ensures { result ≡ marked_or_flag flag low high value.now }
{
    if flag {
        return plain_number(number_of(value, low, high));
    }
    marked_of(value, low, high)
}

// The lines due at a position, each a number under its key within its bounds, into their places; the one at the place `flag` carries no mark.
// The loop of `read_lines` once more, which reads numbers without marks: a reader as a parameter would need its contract in `LinesRead`, which
// docs/STATEMENTS.md has. Keys and bounds stay apart, as `read_lines` takes them; so in the next function.
#[tactic(auto, using(crate::proofs::Marking::marked_start))]
fn marked_lines(
    text: &[u8],
    at: usize,
    keys: &[u8],
    lows: &[i64],
    highs: &[i64],
    flag: usize,
    out: &mut [i64],
) -> Result<MarkedLines, Fault>
    requires { FewLines keys.now lows.now highs.now out.old }
    ensures { MarksRead (fields_of flag 0 (keys_of keys.now) lows.now highs.now) text.now at out.new result }
{
    let mut next = at;
    let mut from: usize = 0;
    let mut marks: u64 = 0;
    let mut mark: u64 = 1;
    for i in 0..out.len() {
        let end = piece_end(keys, from, b'=');
        let key = part(keys, from, end);
        let value = line_value(text, next, key);
        let n = marked_or_flag(value, lows[i], highs[i], i == flag);
        let Ok(read) = n else {
            return Err(value_fault(text, next, key, number_refusal(n)));
        };
        out[i] = read.number;
        if read.suspect {
            marks += mark;
        }
        next += key.len() + value.len() + 1;
        from = end;
        mark *= 2;
    }
    Ok(MarkedLines { marks, next })
}

// The same lines, first read as numbers alone, since marks are rare; where one of them is refused, all are read as numbers that may be marked.
pub(crate) fn number_lines(
    text: &[u8],
    at: usize,
    keys: &[u8],
    lows: &[i64],
    highs: &[i64],
    flag: usize,
    out: &mut [i64],
) -> Result<MarkedLines, Fault>
    requires { FewLines keys.now lows.now highs.now out.old }
    ensures { MarksRead (fields_of flag 0 (keys_of keys.now) lows.now highs.now) text.now at out.new result }
{
    if let Ok(next) = read_lines(text, at, keys, lows, highs, out) {
        return Ok(MarkedLines { marks: 0, next });
    }
    marked_lines(text, at, keys, lows, highs, flag, out)
}
