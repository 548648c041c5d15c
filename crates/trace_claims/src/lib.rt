// Theorems about the reports of traces, in proofs/. There is no code.
#![tactic(auto)]
