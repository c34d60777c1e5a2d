// A curve text read into a lent curve set of 50 numbers.
ghost use Rattle.ordc.specs.CurveText.{ReadCurvesCalled};

use crate::reply::{ACCEPTED, Reply, refused};
use curve_set::values::values_of;
use curve_text::read_curves;

// A curve text read into a lent curve set, which a refusal leaves as it was.
pub fn ordc_read_curves(text: &[u8], curves: &mut [i64; 50]) -> Reply
    ensures { ReadCurvesCalled text.now curves.old curves.new result }
{
    match read_curves(text) {
        Ok(read) => {
            *curves = values_of(read);
            ACCEPTED
        }
        Err(found) => refused(found),
    }
}
