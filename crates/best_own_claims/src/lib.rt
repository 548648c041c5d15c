// The entries of best_own are the engine's own actions: proofs, no code.
#![tactic(auto)]
