// A READ's overlap counts the WRITEs in progress at some moment of it: the theorem and its laws stand in specs/.
#![tactic(auto)]
