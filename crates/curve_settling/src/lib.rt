// Settling: the mean and the spread of each group's errors, as a curve set.
#![tactic(auto)]

ghost use Rattle.std.specs.Prelude.{◌≡◌, true, ◌≤◌};
ghost use Rattle.curve_record.specs.Possible.{possible, record_possible};
ghost use Rattle.curve_settling.specs.Settle.{pair_of, settled_curves, settled};

use curve_record::possible::record_possible;
use curve_record::squares::squares_near;
use curve_record::{Group, Record};
use curve_set::{CurveSet, Pair, floor_in_range, refused_curves, voll_in_range};
use integer::floor_div;
use root::root;
use text_refusal::refusal::Refusal;

// The mean and the spread of a group that has hours.
fn pair_of(g: Group) -> Pair
    requires g_value { possible g ≡ true }
    requires le_count { 1 ≤ g.count }
    ensures { result ≡ pair_of g }
{
    let mean = floor_div(g.sum, g.count);
    // The sum of (e - mean)^2 over the errors e.
    let v = squares_near(g, mean);
    let spread = root(floor_div(v, g.count) as u64);
    Pair {
        mean,
        spread: spread as i64,
    }
}

// The curves of a record's groups, or the first faulty group: 12 for fewer than 2 hours, then 13 for a spread of 0. VOLL and X stay two numbers: `settle`, which
// docs/STATEMENTS.md names, takes them so. The clause is no invariant of `Record`, which is public: hosts lend any numbers for it (the C interface).
// The group's number stands in the place of the line: `settled_curves` has it so, and docs/REFUSALS.md tells hosts so.
#[tactic(auto, using(crate::proofs::Turn::too_few))]
fn settle_groups(history: Record, voll: i64, floor: i64) -> Result<CurveSet, Refusal>
    requires { record_possible history ≡ true }
    ensures { result ≡ settled_curves history voll floor }
{
    let mut pairs = [Pair { mean: 0, spread: 0 }; 24];
    for (i, g) in history.groups.iter().enumerate() {
        if g.count < 2 {
            return refused_curves(12, i);
        }
        let pair = pair_of(*g);
        if pair.spread == 0 {
            return refused_curves(13, i);
        }
        pairs[i] = pair;
    }
    Ok(CurveSet { voll, floor, pairs })
}

// The curves of a record, with VOLL in cents per MWh and the minimum contingency level X in kW.
#[tactic(auto, unfolding(crate::specs::Settle::settled))]
pub fn settle(history: Record, voll: i64, floor: i64) -> Result<CurveSet, Refusal>
    ensures { result ≡ settled history voll floor }
{
    if !record_possible(history) {
        return refused_curves(1, 0);
    }
    if !voll_in_range(voll) || !floor_in_range(floor) {
        return refused_curves(7, 0);
    }
    settle_groups(history, voll, floor)
}
