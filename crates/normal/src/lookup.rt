// The table of knots, and N between them.
ghost use Rattle.std.specs.Prelude.{◌≡◌, suc, ◌-◌, ◌*◌, ◌/◌, ◌<◌};
ghost use Rattle.normal.specs.Knot.{knot, IsTable};
ghost use Rattle.normal.specs.Normal.{upper, normal};

use crate::knots::KNOTS;
use integer::magnitude;

// The knots, which are built anew each time that a table is made: one table serves as many reads as may be.
#[derive(Drop)]
pub(crate) struct Table {
    knots: [u32; 501],
    ghost is_table: { IsTable knots },
}

// The knot at which an interval of the table starts, and the way to the next one.
#[derive(Drop)]
struct Interval {
    low: u64,
    step: u64,
}

// The floor of step * rest / denominator where the product may not fit: the greatest number whose product with the denominator is no more, by halving
// the numbers that are left. A division in 128 bits would be a call of the compiler's run-time library, which the archive for C does without.
fn bisected(step: u64, rest: u64, denominator: u64) -> u64
    requires { (rest < denominator) × (step < 4000000) }
    ensures { result ≡ step * rest / denominator }
{
    let product = step as u128 * rest as u128;
    let mut low: u64 = 0;
    let mut high = step + 1;
    while low + 1 < high {
        let middle = (low + high) / 2;
        if middle as u128 * denominator as u128 <= product {
            low = middle;
        } else {
            high = middle;
        }
    }
    low
}

// The floor of step * rest / denominator. Up to 2^42 the product fits.
fn share(step: u64, rest: u64, denominator: u64) -> u64
    requires { (rest < denominator) × (step < 4000000) }
    ensures { result ≡ step * rest / denominator }
{
    if rest < 4398046511104 {
        return step * rest / denominator;
    }
    bisected(step, rest, denominator)
}

impl Table {
    pub(crate) fn new() -> Table {
        Table { knots: KNOTS }
    }

    fn interval_at(&self, k: usize) -> Interval
        requires { k < 500 }
        ensures { (result.low ≡ knot k) × (result.step ≡ knot (suc k) - knot k) }
    {
        let low = self.knots[k] as u64;
        let high = self.knots[k + 1] as u64;
        Interval {
            low,
            step: high - low,
        }
    }

    // N(p) for p = numerator / denominator, not below zero.
    fn upper_half(&self, numerator: u64, denominator: u64) -> u64
        ensures { result ≡ upper numerator denominator }
    {
        if denominator == 0 {
            return 1000000000;
        }
        let k = numerator / denominator;
        if 500 <= k {
            return 1000000000;
        }
        let interval = self.interval_at(k as usize);
        interval.low + share(interval.step, numerator % denominator, denominator)
    }

    // N(p) for p = numerator / denominator.
    #[tactic(auto, using(std::proofs::lemmas::Int::ints, crate::proofs::Order::upper_range), unfolding(crate::specs::Normal::normal))]
    pub(crate) fn both_halves(&self, numerator: i64, denominator: u64) -> u64
        ensures { result ≡ normal numerator denominator }
    {
        let value = self.upper_half(magnitude(numerator), denominator);
        if numerator < 0 {
            return 1000000000 - value;
        }
        value
    }
}
