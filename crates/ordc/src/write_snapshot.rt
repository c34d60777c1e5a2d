// The text of a snapshot held as lent values, written into a lent buffer.
ghost use Rattle.ordc.specs.Snapshot.{WriteSnapshotCalled};

use crate::reply::{ACCEPTED, Reply, refused};
use pricing_held_text::write_held;

// The text of lent values written into a lent buffer, and its length; a refusal leaves the buffer and the length as they were.
pub fn ordc_write_snapshot(
    header: &[i64; 8],
    ids: &[u8],
    numbers: &[i64],
    buffer: &mut [u8],
    written: &mut usize,
) -> Reply
    ensures { WriteSnapshotCalled header.now ids.now numbers.now buffer.old written.old buffer.new written.new result }
{
    match write_held(header, ids, numbers, buffer) {
        Ok(length) => {
            *written = length;
            ACCEPTED
        }
        Err(found) => refused(found),
    }
}
