// No code: neither price rises with more reserve, and off-line ≤ on-line ≤ max(0, VOLL - lambda), over sums and header numbers.
#![tactic(auto)]
