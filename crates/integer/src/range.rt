// Numbers and the ranges that they lie in.
ghost use Rattle.std.specs.Prelude.{◌≡◌};
ghost use Rattle.integer.specs.Range.{within};

// Whether a number lies from low to high.
// The two comparisons of `within`: `(low..=high).contains(&z)` is no plainer. Low and high stay two numbers, as the definition has them.
pub fn is_within(z: i64, low: i64, high: i64) -> bool
    ensures { result ≡ within low high z }
{
    low <= z && z <= high
}
