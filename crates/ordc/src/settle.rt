// Settling a record.
ghost use Rattle.ordc.specs.Record.{SettleCalled};

use crate::layout::record_of;
use crate::reply::{ACCEPTED, Reply, refused};
use curve_set::values::values_of;
use curve_settling::settle;

// The curves of a lent record, with VOLL in cents per MWh and the minimum contingency level X in kW, laid into a lent curve set, which a refusal leaves as it was.
pub fn ordc_settle(history: &[i64; 72], voll: i64, floor: i64, curves: &mut [i64; 50]) -> Reply
    ensures { SettleCalled history.now voll floor curves.old curves.new result }
{
    match settle(record_of(history), voll, floor) {
        Ok(settled) => {
            *curves = values_of(settled);
            ACCEPTED
        }
        Err(found) => refused(found),
    }
}
