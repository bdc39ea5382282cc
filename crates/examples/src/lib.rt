// Worked examples alone: see proofs/.
#![tactic(auto)]
