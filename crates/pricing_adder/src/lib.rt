// Reserves and the two prices from sums and header numbers.
#![tactic(auto)]

pub mod price;
mod reserve;
