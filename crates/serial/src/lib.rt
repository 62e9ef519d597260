// Demand 3, one theorem over every list of steps: the claim stands in the crate claim, its proof in proofs/.
#![tactic(auto)]
