// A snapshot's text read into values: a header of eight numbers, and for each resource a row of bytes with its id and a row of numbers.
#![tactic(auto)]

mod rows;
mod values;

ghost use Rattle.pricing_snapshot.specs.Snapshot.{snapshot_in};
ghost use Rattle.pricing_held_reading.specs.Reading.{HeldRead};
ghost use Rattle.pricing_held_reading.specs.internal.Laying.{SnapshotRoom, SnapshotLaid};

use crate::rows::lay_rows;
use crate::values::lay_numbers;
use integer::magnitude;
use pricing_held::held_count;
use pricing_snapshot::read_snapshot;
use text_refusal::refusal::Refusal;

// The header and the resources of a text that was read already; the sizes are those of the header's keys.
fn lay_snapshot(
    text: &[u8],
    count: usize,
    header: &mut [i64; 8],
    ids: &mut [u8],
    numbers: &mut [i64],
)
    requires { SnapshotRoom (snapshot_in text.now) count ids.old numbers.old }
    ensures { SnapshotLaid (snapshot_in text.now) ids.old numbers.old header.new ids.new numbers.new }
{
    let sizes = [6usize, 5, 7, 7, 4, 5, 6, 6];
    let laid = lay_numbers(text, 0, &sizes, header);
    lay_rows(text, laid.next, count, ids, numbers);
}

// A text that is accepted is looked at twice: all of it is checked before a lent place is changed, and then its values are laid.
pub fn read_held(
    text: &[u8],
    header: &mut [i64; 8],
    ids: &mut [u8],
    numbers: &mut [i64],
) -> Result<(), Refusal>
    ensures { HeldRead text.now header.old ids.old numbers.old header.new ids.new numbers.new result }
{
    let snapshot = read_snapshot(text)?;
    let count = magnitude(snapshot.header.count) as usize;
    if held_count(ids, numbers) < count {
        return Err(Refusal {
            number: 14,
            line: 0,
        });
    }
    lay_snapshot(text, count, header, ids, numbers);
    Ok(())
}
