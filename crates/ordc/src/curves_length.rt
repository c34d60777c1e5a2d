// The length of the text of a lent curve set.
ghost use Rattle.ordc.specs.CurveText.{CurvesLengthCalled};

use crate::reply::{ACCEPTED, Reply, refused};
use curve_set::values::curves_of;
use curve_text::length::curves_length;

// The length of a lent curve set's text, before it is written; a refusal leaves the lent length as it was.
pub fn ordc_curves_length(curves: &[i64; 50], length: &mut usize) -> Reply
    ensures { CurvesLengthCalled curves.now length.old length.new result }
{
    match curves_length(curves_of(*curves)) {
        Ok(count) => {
            *length = count;
            ACCEPTED
        }
        Err(found) => refused(found),
    }
}
