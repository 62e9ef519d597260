// What sound tables ask of lengths alone.
#![tactic(auto)]

pub mod lengths;
