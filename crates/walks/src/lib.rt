// The proof kit for functions that are proved by a walk by hand: proofs/Frame.antt, proofs/Opening.antt, proofs/Lending.antt and proofs/Arrays.antt. No code.
#![tactic(auto)]
