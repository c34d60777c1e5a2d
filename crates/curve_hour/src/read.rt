// One hour's text: the hour-ahead reserve, the reserves of its SCED runs, and the reserve error.
ghost use Rattle.std.specs.Prelude.{◌≡◌, ◌≤◌, length};
ghost use Rattle.curve_hour.specs.Hour.{hour_in, runs_at, error_answer};

use crate::intervals::read_intervals;
use crate::reserve::HourValues;
use integer::floor_div;
use text_line::end_at;
use text_refusal::refusal::{Fault, Refusal, refusal_of};
use text_schema::read_lines;

// The least and the greatest number of each line before the runs, apart as `read_lines` takes them.
const LOWS: [i64; 13] = [1, 0, 0, 0, -20000000, 0, 0, 0, 0, 0, 0, 0, 1];

const HIGHS: [i64; 13] = [
    12, 23, 100000000, 100000000, 20000000, 100000000, 100000000, 100000000, 100000000, 100000000,
    100000000, 100000000, 60,
];

// The group and the reserve error of an hour, in kW.
#[derive(Clone, Copy)]
pub struct HourlyError {
    pub group: u64,
    pub error: i64,
}

// An hour whose own lines were read: its runs and the end of the text. The lines of the runs are a part of the text, and a position in the part is moved
// by where it starts.
fn runs_at(text: &[u8], next: usize, hour: &HourValues) -> Result<HourlyError, Refusal>
    requires short { length text.now ≤ 65536 }
    requires inside { next ≤ length text.now }
    ensures { result ≡ error_answer (runs_at text.now hour.now next) }
{
    let runs = hour.runs();
    // A `match`: the closure of a `map_err` would need a `requires` of its own, since the sum fits for this fault and not for any.
    let read = match read_intervals(&text[next..], runs) {
        Ok(read) => read,
        Err(fault) => {
            let found = Fault {
                number: fault.number,
                at: next + fault.at,
            };
            return Err(refusal_of(text, found));
        }
    };
    end_at(text, next + read.next).map_err(|fault| refusal_of(text, fault))?;
    Ok(HourlyError {
        group: hour.group(),
        error: hour.error(floor_div(read.sum, runs)),
    })
}

// An hour's text read: its group and its reserve error.
pub fn read_hour(text: &[u8]) -> Result<HourlyError, Refusal>
    ensures { result ≡ error_answer (hour_in text.now) }
{
    if 65536 < text.len() {
        return Err(Refusal { number: 2, line: 0 });
    }
    let mut values = [0i64; 13];
    let next = read_lines(
        text,
        0,
        b"month=hour=ongen=load=tie=ns=reg=rrs=nclr=offns=cold30=shed=runs=",
        &LOWS,
        &HIGHS,
        &mut values,
    )
    .map_err(|fault| refusal_of(text, fault))?;
    runs_at(text, next, &HourValues::of(&values))
}
