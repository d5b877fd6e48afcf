// A lemma for proofs by hand, which walk through a function's code, is in specs/. No proof here is by hand today.

#![tactic(auto)]
