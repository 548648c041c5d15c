// Theorems about the entries over numbers, in proofs/. There is no code.
#![tactic(auto)]
