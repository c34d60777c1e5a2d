// The text of a curve set: `voll`, `floor`, then 24 pairs `mu`, `sigma`; read, measured, and written into a lent buffer.
#![tactic(auto)]

pub mod length;

ghost use Rattle.std.specs.Prelude.{◌≡◌};
ghost use Rattle.curve_set.specs.CurveValues.{curve_values};
ghost use Rattle.curve_set.specs.Curves.{even_curves};
ghost use Rattle.curve_text.specs.internal.CurveLines.{line_values};
ghost use Rattle.curve_text.specs.CurveText.{read_curves, CurvesWritten};

use curve_set::values::{curves_of, values_of};
use curve_set::{
    CurveSet, GREATEST_FLOOR, GREATEST_MEAN, GREATEST_SPREAD, GREATEST_VOLL, LEAST_FLOOR,
    LEAST_MEAN, LEAST_SPREAD, LEAST_VOLL, Pair, curves_in_range, refused_curves,
};
use text_line::end_at;
use text_refusal::refusal::{Fault, Refusal, refusal_of};
use text_schema::read_lines;
use text_writer::write_lines;

// The keys, one byte string, as `read_lines` and `write_lines` take them.
pub(crate) const KEYS: [u8; 227] =
    *b"voll=floor=mu=sigma=mu=sigma=mu=sigma=mu=sigma=mu=sigma=mu=sigma=mu=sigma=mu=sigma=mu=sigma=mu=sigma=mu=sigma=mu=sigma=mu=sigma=mu=sigma=mu=sigma=mu=sigma=mu=sigma=mu=sigma=mu=sigma=mu=sigma=mu=sigma=mu=sigma=mu=sigma=mu=sigma=";

// One bound for VOLL, one for X, one for each mean and one for each spread, in the order of the lines.
fn bounds(voll: i64, floor: i64, mean: i64, spread: i64) -> [i64; 50]
    ensures { result ≡ curve_values (even_curves voll floor mean spread) }
{
    let pairs = [Pair { mean, spread }; 24];
    values_of(CurveSet { voll, floor, pairs })
}

// The values of the lines of a curve text, or what was refused: a line, or bytes after the last one.
fn curve_lines(text: &[u8]) -> Result<[i64; 50], Fault>
    ensures { result ≡ line_values text.now }
{
    let lows = bounds(LEAST_VOLL, LEAST_FLOOR, LEAST_MEAN, LEAST_SPREAD);
    let highs = bounds(
        GREATEST_VOLL,
        GREATEST_FLOOR,
        GREATEST_MEAN,
        GREATEST_SPREAD,
    );
    let mut values = [0i64; 50];
    let next = read_lines(text, 0, &KEYS, &lows, &highs, &mut values)?;
    end_at(text, next)?;
    Ok(values)
}

// A longer text is refused unread.
const MOST_BYTES: usize = 4096;

// A curve text read.
pub fn read_curves(text: &[u8]) -> Result<CurveSet, Refusal>
    ensures { result ≡ read_curves text.now }
{
    if MOST_BYTES < text.len() {
        return refused_curves(2, 0);
    }
    let values = curve_lines(text).map_err(|fault| refusal_of(text, fault))?;
    Ok(curves_of(values))
}

// A curve set's text written into a lent buffer: how many bytes it has.
pub fn write_curves(curves: CurveSet, buffer: &mut [u8]) -> Result<usize, Refusal>
    ensures { CurvesWritten curves buffer.old buffer.new result }
{
    if !curves_in_range(curves) {
        return Err(Refusal { number: 1, line: 0 });
    }
    let values = values_of(curves);
    let Some(length) = write_lines(buffer, 0, &KEYS, &values) else {
        return Err(Refusal {
            number: 14,
            line: 0,
        });
    };
    Ok(length)
}
