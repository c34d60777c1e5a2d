// The length of the text of a snapshot held as lent values.
ghost use Rattle.ordc.specs.Snapshot.{SnapshotLengthCalled};

use crate::reply::{ACCEPTED, Reply, refused};
use pricing_held_text::held_length;

// The length of the text of lent values, before it is written; a refusal leaves the lent length as it was.
pub fn ordc_snapshot_length(
    header: &[i64; 8],
    ids: &[u8],
    numbers: &[i64],
    length: &mut usize,
) -> Reply
    ensures { SnapshotLengthCalled header.now ids.now numbers.now length.old length.new result }
{
    match held_length(header, ids, numbers) {
        Ok(count) => {
            *length = count;
            ACCEPTED
        }
        Err(found) => refused(found),
    }
}
