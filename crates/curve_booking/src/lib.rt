// Booking an hour on the record.
#![tactic(auto)]

ghost use Rattle.std.specs.Prelude.{◌≡◌, true, ◌≤◌, ◌<◌, nat_abs};
ghost use Rattle.curve_record.specs.Possible.{record_possible};
ghost use Rattle.curve_record.specs.internal.Small.{SmallGroup};
ghost use Rattle.curve_booking.specs.Booking.{with_error, book_error, booked};

use curve_hour::read::read_hour;
use curve_record::possible::record_possible;
use curve_record::{Group, Record};
use text_refusal::refusal::Refusal;

// A group with one error more.
// The first clause is no invariant of `Group`, which is public: hosts lend any numbers for it (the C interface).
fn with_error(g: Group, e: i64) -> Group
    requires small_group { SmallGroup g }
    requires e_bound { nat_abs e ≤ 20000000 }
    ensures { result ≡ with_error g e }
{
    Group {
        count: g.count + 1,
        sum: g.sum + e,
        squares: g.squares + e * e,
    }
}

// An error booked on its group: 10 where the group has 1000 hours, 11 where the error lies beyond its bounds.
// The first clause is no invariant of `Record`, which is public: hosts lend any numbers for it (the C interface).
fn book_error(history: Record, group: usize, e: i64) -> Result<Record, Refusal>
    requires history_value { record_possible history ≡ true }
    requires group_bound { group < 24 }
    ensures { result ≡ book_error history group e }
{
    let g = history.groups[group];
    if 1000 <= g.count {
        return Err(Refusal {
            number: 10,
            line: 0,
        });
    }
    if 20000000 < e.unsigned_abs() {
        return Err(Refusal {
            number: 11,
            line: 0,
        });
    }
    let mut changed = history;
    changed.groups[group] = with_error(g, e);
    Ok(changed)
}

// An hour's text booked on a record: an accepted hour gives the record with only its group changed, a refused one no record.
pub fn book(history: Record, text: &[u8]) -> Result<Record, Refusal>
    ensures { result ≡ booked history text.now }
{
    if !record_possible(history) {
        return Err(Refusal { number: 1, line: 0 });
    }
    let hour = read_hour(text)?;
    book_error(history, hour.group as usize, hour.error)
}
