// The functions over version structs are the station's of the store: the theorems stand in proofs/.
#![tactic(auto)]
