// The top of the text storey: what reading and writing by any schema promise (specs/Promises.antt). There is no code.
#![tactic(auto)]
