// Season, block and group of an hour.
#![tactic(auto)]

ghost use Rattle.std.specs.Prelude.{◌≡◌};
ghost use Rattle.curve_group.specs.Season.{season_of, group_of};

// The season of a month, as the methodology lists the months. No text has a month outside 1 to 12; it would be in season 0.
// A number and no enum: the group counts with it, as `season_of` and `group_of` of specs/Season.antt do.
#[tactic(auto, using(crate::proofs::Listed::season_number))]
fn season_of(month: u64) -> u64
    ensures { result ≡ season_of month }
{
    match month {
        12 | 1 | 2 => 0, // winter
        3 | 4 | 5 => 1, // spring
        6 | 7 | 8 => 2, // summer
        9 | 10 | 11 => 3, // fall
        _ => 0,
    }
}

// The group of a month and an hour: six blocks of four hours in each of four seasons, the first block from two hours before midnight on.
// The hour is brought below 24 first, so that two hours more never overflow.
#[tactic(auto, using(crate::proofs::Season::season_below), unfolding(crate::specs::Season::group_of, crate::specs::Season::block_of))]
pub fn group_of(month: u64, hour: u64) -> u64
    ensures { result ≡ group_of month hour }
{
    6 * season_of(month) + (hour % 24 + 2) % 24 / 4
}
