// The page of a lent curve set written into a lent buffer.
ghost use Rattle.ordc.specs.Page.{WritePageCalled};

use crate::reply::{ACCEPTED, Reply, refused};
use curve_page::write_page;
use curve_set::values::curves_of;

// A lent curve set's page written into a lent buffer, which a refusal leaves as it was.
pub fn ordc_write_page(curves: &[i64; 50], buffer: &mut [u8]) -> Reply
    ensures { WritePageCalled curves.now buffer.old buffer.new result }
{
    match write_page(curves_of(*curves), buffer) {
        Ok(()) => ACCEPTED,
        Err(found) => refused(found),
    }
}
