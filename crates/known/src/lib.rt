// No code: the known values of document 01, computed together, examples that tell the definitions from wrong programs, and two lists of bookings on which a
// price falls as demand 3 says. They stand apart from the crates whose definitions they compute, so that no edit of those computes them again.
#![tactic(auto)]
