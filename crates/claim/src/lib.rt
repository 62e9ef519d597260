// Demand 3 as a claim of a machine, and what the claim refutes: all of it stands in specs/. The crate serial proves it of the store.
#![tactic(auto)]
