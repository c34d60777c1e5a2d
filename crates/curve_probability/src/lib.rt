// The probability that the reserve falls below the minimum contingency level X, in billionths.
#![tactic(auto)]

ghost use Rattle.std.specs.Prelude.{◌≡◌, ℕ, ◌≤◌, map, pos, ◌-ℤ◌, ◌*ℤ◌};
ghost use Rattle.curve_probability.specs.internal.Distance.{distance_above, left_of_one};
ghost use Rattle.curve_probability.specs.Probability.{online_probability, offline_probability, offline_probabilities};

use normal::{distribution, distributions};

// So far above X the fraction is at least 500 whatever the mean and the spread, and nothing is left of one.
const FAR: u64 = 1099511627776;

// How far a reserve lies above X: 0 at X and below it, and at most FAR.
#[tactic(auto, using(std::proofs::lemmas::Int::ints))]
fn distance_above(reserve: i64, floor: i32) -> u64
    ensures { result ≡ distance_above reserve floor }
{
    let x = floor as i64;
    if reserve <= x {
        return 0;
    }
    reserve.abs_diff(x).min(FAR)
}

// The numerator of piS at a distance above X.
// Beside that of piNS, from which it differs in two factors: one function would take both, and is no plainer.
#[tactic(auto, using(std::proofs::lemmas::Int::ints))]
fn online_numerator(distance: u64, mean: i32) -> i64
    requires { distance ≤ 1099511627776 }
    ensures { result ≡ pos 50000 *ℤ (pos 2 *ℤ pos distance -ℤ mean) }
{
    50000 * (2 * distance as i64 - mean as i64)
}

// The numerator of piNS at a distance above X.
#[tactic(auto, using(std::proofs::lemmas::Int::ints))]
fn offline_numerator(distance: u64, mean: i32) -> i64
    requires { distance ≤ 1099511627776 }
    ensures { result ≡ pos 100 *ℤ (pos distance -ℤ mean) }
{
    100 * (distance as i64 - mean as i64)
}

// The numerators of piNS at four distances above X.
// Four and no const parameter, as `offline_probabilities` has them.
fn numerators_above(above: [u32; 4], mean: i32) -> [i64; 4]
    ensures { result ≡ map (λ (distance : ℕ). pos 100 *ℤ (pos distance -ℤ mean)) above }
{
    let mut numerators = [0; 4];
    for i in 0..4 {
        numerators[i] = offline_numerator(above[i] as u64, mean);
    }
    numerators
}

// What N leaves of one at a distance above X; at X itself, one.
fn left_of_one(distance: u64, value: u64) -> u64
    requires { value ≤ 1000000000 }
    ensures { result ≡ left_of_one distance value }
{
    if distance == 0 {
        return 1000000000;
    }
    1000000000 - value
}

// piS, at a reserve, X, a mean and a spread in kW.
// Two functions, this and the next, both of which docs/STATEMENTS.md names: what they have in common is `distance_above`, `distribution` and `left_of_one`.
// Mean and spread stay two numbers from here on: both have smaller types than in a `Pair`.
#[tactic(auto, using(crate::proofs::Distance::normal_at_most))]
pub fn online_probability(reserve: i64, floor: i32, mean: i32, spread: u32) -> u64
    ensures { result ≡ online_probability reserve floor mean spread }
{
    // At X and below it nothing has to be looked up in the table.
    if reserve <= floor as i64 {
        return 1000000000;
    }
    let distance = distance_above(reserve, floor);
    let value = distribution(online_numerator(distance, mean), 707 * spread as u64);
    left_of_one(distance, value)
}

// piNS, at a reserve, X, a mean and a spread in kW.
#[tactic(auto, using(crate::proofs::Distance::normal_at_most))]
pub fn offline_probability(reserve: i64, floor: i32, mean: i32, spread: u32) -> u64
    ensures { result ≡ offline_probability reserve floor mean spread }
{
    if reserve <= floor as i64 {
        return 1000000000;
    }
    let distance = distance_above(reserve, floor);
    let value = distribution(offline_numerator(distance, mean), spread as u64);
    left_of_one(distance, value)
}

// piNS at four distances above X in kW, with one table for all of them.
// Four and no const parameter: the page, the one caller, has four such columns, and docs/STATEMENTS.md names it so.
pub fn offline_probabilities(above: [u32; 4], mean: i32, spread: u32) -> [u64; 4]
    ensures { result ≡ offline_probabilities above mean spread }
{
    let values = distributions(numerators_above(above, mean), spread as u64);
    let mut probabilities = [0; 4];
    for i in 0..4 {
        probabilities[i] = left_of_one(above[i] as u64, values[i]);
    }
    probabilities
}
