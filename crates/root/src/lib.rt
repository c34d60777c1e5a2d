// The integer square root.
#![tactic(auto)]

ghost use Rattle.std.specs.Prelude.{◌≡◌};
ghost use Rattle.root.specs.Root.{root_of};

// The largest number whose square is at most `x`. The first guess is a power of two at or above the root, from the length
// of `x` in bits; each step of Newton's is smaller and not below the root. Its square could overflow: the quotient by the
// guess is compared instead.
pub fn root(x: u64) -> u64
    ensures { result ≡ root_of x }
{
    if x == 0 {
        return 0;
    }
    let mut r = 1u64 << ((65 - u64::leading_zeros(x)) / 2);
    while x / r < r {
        r = (r + x / r) / 2;
    }
    r
}
