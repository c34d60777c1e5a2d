// The curve set: VOLL, the minimum contingency level X, and the mean and the spread of each group; the range of each value.
#![tactic(auto)]

pub mod values;

ghost use Rattle.std.specs.Prelude.{◌≡◌};
ghost use Rattle.curve_set.specs.Curves.{voll_in_range, floor_in_range, pair_in_range, pairs_in_range, curves_in_range, refused_curves};

use integer::range::is_within;
use text_refusal::refusal::Refusal;

// The least and the greatest VOLL, X, mean and spread.
// A least and a greatest each, apart: `is_within` and `read_lines` take them so.
pub const LEAST_VOLL: i64 = 0;

pub const GREATEST_VOLL: i64 = 2000000;

pub const LEAST_FLOOR: i64 = 0;

pub const GREATEST_FLOOR: i64 = 20000000;

pub const LEAST_MEAN: i64 = -20000000;

pub const GREATEST_MEAN: i64 = 20000000;

pub const LEAST_SPREAD: i64 = 1;

pub const GREATEST_SPREAD: i64 = 20000000;

// The mean and the spread of a group's reserve errors, in kW.
#[derive(Clone, Copy)]
pub struct Pair {
    pub mean: i64,
    pub spread: i64,
}

// VOLL in cents per MWh, and X in kW.
#[derive(Clone, Copy)]
pub struct CurveSet {
    pub voll: i64,
    pub floor: i64,
    pub pairs: [Pair; 24],
}

// No curves, but the refusal.
pub fn refused_curves(number: u64, line: usize) -> Result<CurveSet, Refusal>
    ensures { result ≡ refused_curves number line }
{
    Err(Refusal { number, line })
}

// Whether VOLL is in its range.
pub fn voll_in_range(voll: i64) -> bool
    ensures { result ≡ voll_in_range voll }
{
    is_within(voll, LEAST_VOLL, GREATEST_VOLL)
}

// Whether the minimum contingency level X is in its range. What it has in common with VOLL is `is_within`; each name is one that contracts speak of.
pub fn floor_in_range(floor: i64) -> bool
    ensures { result ≡ floor_in_range floor }
{
    is_within(floor, LEAST_FLOOR, GREATEST_FLOOR)
}

// Whether the mean and the spread of a group are in their ranges.
fn pair_in_range(pair: Pair) -> bool
    ensures { result ≡ pair_in_range pair }
{
    let mean = is_within(pair.mean, LEAST_MEAN, GREATEST_MEAN);
    let spread = is_within(pair.spread, LEAST_SPREAD, GREATEST_SPREAD);
    mean & spread
}

// Whether each pair is in range.
fn pairs_in_range(pairs: &[Pair; 24]) -> bool
    ensures { result ≡ pairs_in_range pairs.now }
{
    pairs.iter().all(|pair| pair_in_range(*pair))
}

// Whether each value of a curve set is in its range.
#[tactic(auto, unfolding(crate::specs::Curves::curves_in_range))]
pub fn curves_in_range(curves: CurveSet) -> bool
    ensures { result ≡ curves_in_range curves }
{
    let voll = voll_in_range(curves.voll);
    let floor = floor_in_range(curves.floor);
    let pairs = pairs_in_range(&curves.pairs);
    voll & (floor & pairs)
}
