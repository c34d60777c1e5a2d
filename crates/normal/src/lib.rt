// The normal distribution function N(p) of a fraction p, between the 501 knots of its table.
#![tactic(auto)]

ghost use Rattle.std.specs.Prelude.{◌≡◌, map, ℤ};
ghost use Rattle.normal.specs.Normal.{normal};

mod knots;
mod lookup;

use lookup::Table;

// N(p) for p = numerator / denominator, in billionths. A denominator of 0 counts as p at or beyond 500 on its side.
pub fn distribution(numerator: i64, denominator: u64) -> u64
    ensures { result ≡ normal numerator denominator }
{
    let [value] = distributions([numerator], denominator);
    value
}

// N(p) for any count of numerators over one denominator, with one table for all of them.
pub fn distributions<const N: usize>(numerators: [i64; N], denominator: u64) -> [u64; N]
    ensures { result ≡ map (λ (numerator : ℤ). normal numerator denominator) numerators.entry }
{
    let table = Table::new();
    let mut values = [0; N];
    for i in 0..N {
        values[i] = table.both_halves(numerators[i], denominator);
    }
    values
}
