// A turn of the program that plays a text: its definitions and laws stand in specs/; the functions are those of `window` and `streaming`.
#![tactic(auto)]
