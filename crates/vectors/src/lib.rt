// Document 01's starred cards, proved on the definitions: the table stands in specs/Cards.antt.
#![tactic(auto)]
