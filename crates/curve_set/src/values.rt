// The values of a curve set in the order of its lines: VOLL, X, then the mean and the spread of each group; and the curve set of such values.
ghost use Rattle.std.specs.Prelude.{◌≡◌, ◌+◌, ◌*◌, ◌<◌, set};
ghost use Rattle.curve_set.specs.CurveValues.{curve_values, pair_at, curves_of};

use crate::{CurveSet, Pair};

// Where the first mean and the first spread stand.
const MEANS: usize = 2;

const SPREADS: usize = 3;

// The mean and the spread of a group laid at their places.
// By place, here and in the next three functions: a proof knows nothing of what `iter_mut` or `as_chunks_mut` lent, once the loan is over.
fn lay_pair(values: &mut [i64; 50], group: usize, pair: Pair)
    requires { group < 24 }
    ensures { values.new ≡ set (set values.old (2 + 2 * group) pair.mean) (3 + 2 * group) pair.spread }
{
    let mean = pair.mean;
    let spread = pair.spread;
    values[MEANS + 2 * group] = mean;
    values[SPREADS + 2 * group] = spread;
}

// The values of a curve set in the order of its lines.
// A function and no `From`: docs/STATEMENTS.md names it, and it promises the definition `curve_values`.
pub fn values_of(curves: CurveSet) -> [i64; 50]
    ensures { result ≡ curve_values curves }
{
    let voll = curves.voll;
    let floor = curves.floor;
    let mut values = [0i64; 50];
    values[0] = voll;
    values[1] = floor;
    for group in 0..24 {
        lay_pair(&mut values, group, curves.pairs[group]);
    }
    values
}

// The mean and the spread of a group, from their places.
fn pair_at(values: &[i64; 50], group: usize) -> Pair
    requires { group < 24 }
    ensures { result ≡ pair_at values.now group }
{
    let mean = values[MEANS + 2 * group];
    let spread = values[SPREADS + 2 * group];
    Pair { mean, spread }
}

// The curve set of values in the order of its lines.
// A function and no `From`: docs/STATEMENTS.md names it, and it promises the definition of its name.
pub fn curves_of(values: [i64; 50]) -> CurveSet
    ensures { result ≡ curves_of values }
{
    let mut pairs = [Pair { mean: 0, spread: 0 }; 24];
    for group in 0..24 {
        pairs[group] = pair_at(&values, group);
    }
    let voll = values[0];
    let floor = values[1];
    CurveSet { voll, floor, pairs }
}
