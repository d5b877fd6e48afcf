// The theorem, that every list of calls on an opened bench meets demand 3: specs/Statement/Demand3.antt states it,
// proofs/Theorem.antt proves it.

#![tactic(auto)]
