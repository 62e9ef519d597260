// The register's order is the row's order, as listed_order claims it: the theorem and its laws stand in specs/.
#![tactic(auto)]
