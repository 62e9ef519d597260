// Runs of the store and of wrong stores, computed: all of it stands in specs/.
#![tactic(auto)]
