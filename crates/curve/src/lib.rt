// No code: what the curve storey promises, from texts of hours to curve sets and probabilities.
#![tactic(auto)]
