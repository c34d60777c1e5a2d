// A snapshot's text read into lent values.
ghost use Rattle.ordc.specs.Snapshot.{ReadSnapshotCalled};

use crate::reply::{ACCEPTED, Reply, refused};
use pricing_held_reading::read_held;

// A snapshot's text read into a lent header and lent rows, which a refusal leaves as they were.
pub fn ordc_read_snapshot(
    text: &[u8],
    header: &mut [i64; 8],
    ids: &mut [u8],
    numbers: &mut [i64],
) -> Reply
    ensures { ReadSnapshotCalled text.now header.old ids.old numbers.old header.new ids.new numbers.new result }
{
    match read_held(text, header, ids, numbers) {
        Ok(()) => ACCEPTED,
        Err(found) => refused(found),
    }
}
