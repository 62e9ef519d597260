// That the register's order is the row's order, as a claim of a listing and a machine, and what the claim says part by part: all of it
// stands in specs/. The crate register_order proves it of the register and the store, and refutes it of wrong ones; it stands above, so
// that an edit of the claim does not prove it again.
#![tactic(auto)]
