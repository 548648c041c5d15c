// Theorems about the specification of crate protocol, in proofs/. There is no code.
#![tactic(auto)]
