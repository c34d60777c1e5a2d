// Refusals: within a text, and as a caller sees them.
#![tactic(auto)]

pub mod refusal;
