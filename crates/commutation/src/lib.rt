// Two neighbouring requests at different targets may come in either order: the theorem and its laws stand in specs/.
#![tactic(auto)]
