// The load, as definitions in specs/: the step that it gives next, its steps by number, and which of them would be accepted.
#![tactic(auto)]

use schedule::Step;
use tables::links;

// A step of the load: that of a schedule, and the setpoint of every server in it.
#[derive(Clone, Copy)]
pub struct LoadStep {
    pub step: Step,
    pub setpoint: u32,
}

// What a pick gives where a step is acceptable: the next seed, and the step.
#[derive(Clone, Copy)]
pub struct Pick {
    pub seed: u32,
    pub step: LoadStep,
}

// The targets of a client.
pub const TARGETS: u32 = links::TARGETS as u32;

// How many numbered steps of a client stand ahead of its requests, ahead of its replies, and in all.
pub const BEGINS: u32 = 2;

pub const BEFORE_REPLIES: u32 = BEGINS + TARGETS;

pub const NUMBERED: u32 = BEFORE_REPLIES + TARGETS;
