// Version records: what a station holds as a table of structs, and what is read of it. What is done with such a table is specs/Table.antt;
// the functions stand in the crate versions.
#![tactic(auto)]

use causes::Refusal;
use keys::Key;

// A version: the key of the WRITE that it came with, its badge, and its setpoint.
#[derive(Clone, Copy)]
pub struct Version {
    pub key: Key,
    pub badge: u16,
    pub setpoint: u32,
}

// What is read of a key: the badge that came with it, and its setpoint.
#[derive(Clone, Copy)]
pub struct Reading {
    pub badge: u16,
    pub setpoint: u32,
}

// What a trial found: what the append answered, how many can be read then, where the key stands, and what is read of it.
#[derive(Clone, Copy)]
pub struct Trial {
    pub appended: Result<(), Refusal>,
    pub readable: usize,
    pub place: usize,
    pub reading: Result<Reading, Refusal>,
}
