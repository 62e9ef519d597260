// What sound tables ask of numbers and of states alone.
#![tactic(auto)]

pub mod scalars;
pub mod states;
