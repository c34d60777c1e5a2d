// Which records some errors can have given.
ghost use Rattle.std.specs.Prelude.{◌≡◌, ◌≤◌, ◌*◌, ◌&&◌, nat_abs, pos, ◌+ℤ◌};
ghost use Rattle.std.specs.List.{list_all};
ghost use Rattle.curve_record.specs.Possible.{mean_of, squares_around, not_negative, possible, record_possible};
ghost use Rattle.curve_record.specs.internal.Small.{SmallGroup};

use crate::squares::squares_around;
use crate::{Group, Record};
use integer::range::is_within;
use integer::{floor_div, magnitude};

// The mean of a group, rounded down.
#[tactic(auto, using(std::proofs::lemmas::Int::ints, integer::proofs::Floor::floor_bound), unfolding(crate::specs::Possible::mean_of))]
fn mean_of(g: Group) -> i64
    requires { nat_abs g.sum ≤ g.count * 20000000 }
    ensures value { result ≡ mean_of g }
    ensures bound { nat_abs result ≤ 20000000 }
{
    floor_div(g.sum, g.count)
}

// Whether V is not negative at the mean of a group, nor at the whole number next to it.
// The first clause is no invariant of `Group`, which is public: hosts lend any numbers for it (the C interface).
#[tactic(auto, using(std::proofs::lemmas::Int::ints))]
fn is_not_negative_around_mean(g: Group) -> bool
    requires small_group { SmallGroup g }
    requires sum { nat_abs g.sum ≤ g.count * 20000000 }
    ensures { result ≡ (not_negative (squares_around g (mean_of g)) && not_negative (squares_around g (mean_of g +ℤ pos 1))) }
{
    let mean = mean_of(g);
    0 <= squares_around(g, mean) && 0 <= squares_around(g, mean + 1)
}

// Whether some errors can have given a group's numbers.
#[tactic(auto, using(std::proofs::lemmas::Int::ints), unfolding(crate::specs::Possible::possible))]
fn is_possible(g: Group) -> bool
    ensures { result ≡ possible g }
{
    g.count <= 1000
        && magnitude(g.sum) <= g.count * 20000000
        && is_within(g.squares, 0, (g.count * 400000000000000) as i64)
        && (g.count == 0 || is_not_negative_around_mean(g))
}

// Whether each of some groups is possible.
fn all_possible(groups: &[Group]) -> bool
    ensures { result ≡ list_all possible groups.now }
{
    groups.iter().all(|g| is_possible(*g))
}

// Whether each group of a record is possible.
#[tactic(auto, using(crate::proofs::PossibleGroups::record_possible_held))]
pub fn record_possible(history: Record) -> bool
    ensures { result ≡ record_possible history }
{
    all_possible(&history.groups)
}
