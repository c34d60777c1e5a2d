// Whether an id stands above: a table keeps where each id of the text starts.
ghost use Rattle.pricing_snapshot.specs.internal.Ids.{RoomLeft, IdKept};

use text_id::is_id;
use text_id_table::slot_of;
use text_line::line::{line_value, value_fault};
use text_refusal::refusal::Fault;

// The id due at a position, put into the table, unless it stands above (8): where the lines after it start, or the refused line.
// The steps on the table stand here and in `check_row` of pricing_held: as one public function they would need a `requires`, that a slot is left.
pub(crate) fn new_id(text: &[u8], at: usize, starts: &mut [usize]) -> Result<usize, Fault>
    requires { RoomLeft text.now starts.old }
    ensures { IdKept text.now at starts.old starts.new result }
{
    let value = line_value(text, at, b"id=");
    if !is_id(value) {
        return Err(value_fault(text, at, b"id=", 6));
    }
    let slot = slot_of(text, 10, starts, value);
    if 0 < starts[slot] {
        return Err(Fault { number: 8, at });
    }
    starts[slot] = at + 4;
    Ok(at + 3 + value.len() + 1)
}
