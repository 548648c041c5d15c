// The positions of the search for the best schedule, and what its answer is: definitions and proofs, no code.
#![tactic(auto)]
