// The text of a lent curve set written into a lent buffer.
ghost use Rattle.ordc.specs.CurveText.{WriteCurvesCalled};

use crate::reply::{ACCEPTED, Reply, refused};
use curve_set::values::curves_of;
use curve_text::write_curves;

// A lent curve set's text written into a lent buffer, and its length; a refusal leaves the buffer and the length as they were.
pub fn ordc_write_curves(curves: &[i64; 50], buffer: &mut [u8], written: &mut usize) -> Reply
    ensures { WriteCurvesCalled curves.now buffer.old written.old buffer.new written.new result }
{
    match write_curves(curves_of(*curves), buffer) {
        Ok(length) => {
            *written = length;
            ACCEPTED
        }
        Err(found) => refused(found),
    }
}
