// A search, layer by layer, for the cheapest way through a graph: definitions and proofs, no code.
#![tactic(auto)]
