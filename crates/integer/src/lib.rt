// Whole numbers: the magnitude of a signed number, and division rounded down.
#![tactic(auto)]

ghost use Rattle.std.specs.Prelude.{◌≡◌, ◌/◌, pos, negsuc, nat_abs, ◌<ℤ◌};
ghost use Rattle.integer.specs.Floor.{floor_div};

pub mod range;

// How far a negative number is below -1: the least number has this in an unsigned one, and not its magnitude.
fn complement(a: i64) -> u64
    requires { a <ℤ pos 0 }
    ensures { a ≡ negsuc result }
{
    (-1 - a) as u64
}

// The number without its sign; the least number has one too.
// A name of its own for `unsigned_abs`: docs/STATEMENTS.md names it, and contracts speak of `nat_abs`.
pub fn magnitude(a: i64) -> u64
    ensures { result ≡ nat_abs a }
{
    a.unsigned_abs()
}

// The quotient, and 0 by 0.
fn quotient(a: u64, n: u64) -> u64
    ensures { result ≡ a / n }
{
    a.checked_div(n).unwrap_or(0)
}

// Division rounded toward minus infinity, by a divisor that need not fit a signed number. By 0 it is 0, and -1 for a
// negative number.
#[tactic(auto, using(std::proofs::lemmas::Int::ints), unfolding(crate::specs::Floor::floor_div))]
pub fn floor_div(a: i64, n: u64) -> i64
    ensures { result ≡ floor_div a n }
{
    if a < 0 {
        -1 - quotient(complement(a), n) as i64
    } else {
        quotient(a as u64, n) as i64
    }
}
