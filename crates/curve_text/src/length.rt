// The length of a curve set's text, before it is written.
ghost use Rattle.std.specs.Prelude.{◌≡◌, ◌≤◌, length};
ghost use Rattle.text_writer.specs.internal.Counted.{number_bytes};
ghost use Rattle.curve_text.specs.CurveText.{curve_text};
ghost use Rattle.curve_text.specs.Length.{curves_length};

use crate::KEYS;
use curve_set::values::values_of;
use curve_set::{CurveSet, curves_in_range};
use text_refusal::refusal::Refusal;
use text_writer::number_length;

// How many bytes numbers have, one after the other.
// Here and in pricing_held_text: as one public function it could ask for no bound (no public function has a `requires`), and the sum of many lengths
// need not fit a number.
fn numbers_length(values: &[i64]) -> usize
    requires { length values.now ≤ 50 }
    ensures counted { result ≡ number_bytes values.now }
    ensures few { result ≤ 1000 }
{
    let mut length: usize = 0;
    for value in values {
        length += number_length(*value);
    }
    length
}

// How many bytes a curve set's text has: the keys, byte 10 of each line, and the numbers.
fn text_length(curves: CurveSet) -> usize
    ensures { result ≡ length (curve_text curves) }
{
    let values = values_of(curves);
    KEYS.len() + values.len() + numbers_length(&values)
}

// The length of a curve set's text, or why it is not written.
pub fn curves_length(curves: CurveSet) -> Result<usize, Refusal>
    ensures { result ≡ curves_length curves }
{
    if !curves_in_range(curves) {
        return Err(Refusal { number: 1, line: 0 });
    }
    let length = text_length(curves);
    Ok(length)
}
