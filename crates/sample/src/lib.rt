// Document 01's sample, proved on the definitions: its text and what is printed for it stand in specs/Sample.antt.
#![tactic(auto)]
