// The layout of the record: 72 numbers, count, sum and sum of squares of each of the 24 groups in order: the C interface has them so. They are
// read and laid by place: the contracts name `value` and `set` at a place, and a proof knows no element of what `chunks_mut` lent once the loan is over.
ghost use Rattle.std.specs.Prelude.{◌≡◌, true, ◌+◌, ◌<◌, ◌≤◌, pos, set};
ghost use Rattle.text_schema.specs.Schema.{value};
ghost use Rattle.curve_record.specs.Possible.{record_possible};
ghost use Rattle.ordc.specs.Record.{count_of, record_of, record_values};

use curve_record::{Group, Record};
use integer::magnitude;

// A count that was handed in, a number of the C interface: one below 0 is as impossible as one over 1000.
fn count_of(z: i64) -> u64
    ensures { result ≡ count_of z }
{
    if z < 0 {
        return 1001;
    }
    magnitude(z)
}

// The group whose three numbers start at a place.
fn group_at(values: &[i64; 72], place: usize) -> Group
    requires { place + 2 < 72 }
    ensures { result ≡ record {
      count = count_of (value values.now place);
      sum = value values.now (place + 1);
      squares = value values.now (place + 2);
    } }
{
    Group {
        count: count_of(values[place]),
        sum: values[place + 1],
        squares: values[place + 2],
    }
}

// A group before any hour, here once more: `curve_record::fresh` has it within its record alone.
const NO_HOURS: Group = Group {
    count: 0,
    sum: 0,
    squares: 0,
};

// The record of 72 numbers.
pub(crate) fn record_of(values: &[i64; 72]) -> Record
    ensures { result ≡ record_of values.now }
{
    let mut groups = [NO_HOURS; 24];
    for i in 0..24 {
        groups[i] = group_at(values, 3 * i);
    }
    Record { groups }
}

// A group's three numbers laid from a place on.
fn lay_group(values: &mut [i64; 72], place: usize, group: Group)
    requires { (place + 2 < 72) × (group.count ≤ 1000) }
    ensures { values.new ≡ set (set (set values.old place (pos group.count)) (place + 1) group.sum) (place + 2) group.squares }
{
    let count = group.count as i64;
    let sum = group.sum;
    let squares = group.squares;
    values[place] = count;
    values[place + 1] = sum;
    values[place + 2] = squares;
}

// The 72 numbers of a record that is not impossible.
pub(crate) fn record_values(history: Record) -> [i64; 72]
    requires { record_possible history ≡ true }
    ensures { result ≡ record_values history }
{
    let mut values = [0i64; 72];
    for i in 0..24 {
        lay_group(&mut values, 3 * i, history.groups[i]);
    }
    values
}
