// One hour of history: its text read to a group and a reserve error.
#![tactic(auto)]

mod intervals;
pub mod read;
mod reserve;
