// The record of reserve errors: the count, the sum and the sum of squares of each group.
#![tactic(auto)]

pub mod possible;
pub mod squares;

ghost use Rattle.std.specs.Prelude.{◌≡◌};
ghost use Rattle.curve_record.specs.Record.{fresh};

// The errors of one group: how many, their sum and the sum of their squares.
#[derive(Clone, Copy)]
pub struct Group {
    pub count: u64,
    pub sum: i64,
    pub squares: i64,
}

#[derive(Clone, Copy)]
pub struct Record {
    pub groups: [Group; 24],
}

// A record of no hours.
#[tactic(auto, unfolding(crate::specs::Record::fresh))]
pub fn fresh() -> Record
    ensures { result ≡ fresh }
{
    Record {
        groups: [Group {
            count: 0,
            sum: 0,
            squares: 0,
        }; 24],
    }
}
