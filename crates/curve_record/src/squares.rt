// V of a group, the sum of the squares of its errors around a number: squares - 2 x sum + count x^2.
ghost use Rattle.std.specs.Prelude.{◌≡◌, ◌≤◌, nat_abs};
ghost use Rattle.curve_record.specs.Possible.{squares_around};
ghost use Rattle.curve_record.specs.Squares.{squares_near};
ghost use Rattle.curve_record.specs.internal.Small.{SmallGroup};

use crate::Group;
use integer::magnitude;

// V of a group with x for its mean, which fits where the group's numbers and x are small.
// The first clause is no invariant of `Group`, which is public: hosts lend any numbers for it (the C interface).
pub(crate) fn squares_around(g: Group, x: i64) -> i64
    requires small_group { SmallGroup g }
    requires x_bound { nat_abs x ≤ 20000001 }
    ensures { result ≡ squares_around g x }
{
    g.squares - 2 * (x * g.sum) + (g.count as i64) * (x * x)
}

// V of a group with x for its mean; 0 where the group's numbers or x are too large for any record that is possible, as the definition of that name says.
#[tactic(auto, unfolding(crate::specs::Squares::squares_near))]
pub fn squares_near(g: Group, x: i64) -> i64
    ensures { result ≡ squares_near g x }
{
    let few = g.count <= 1000 && magnitude(g.sum) <= 20000000000;
    let small = magnitude(g.squares) <= 400000000000000000 && magnitude(x) <= 20000001;
    if !(few && small) {
        return 0;
    }
    squares_around(g, x)
}
