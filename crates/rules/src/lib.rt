// The rules of the steps: what each accepted step changes and answers, as definitions in specs/. What a delivered reply answers and the
// states are declared here; any other step is accepted or refused, which a `Result` says. It has no function: what several steps do alike
// stands in the crate step_parts, so that an edit of a rule proves definitions alone.
#![tactic(auto)]

pub mod states;

// What a delivered reply answers. A tag is a place of the log.
// Kept: the rules ask for this enum, with the refusal's number in it ("Language form for each place" in docs/SPECIFICATION.md).
#[derive(Clone, Copy)]
pub enum Arrival {
    Wait,
    Next,
    Write(u32),
    Read(u32),
    Refused(u8),
}

// A delivered reply's answer, and beside it what a READ shows: setpoints, and the tags and badges of the WRITEs that put them there; 0
// where it shows none.
#[derive(Clone, Copy)]
pub struct Delivered {
    pub arrival: Arrival,
    pub setpoints: [u32; 16],
    pub tags: [u32; 16],
    pub badges: [u32; 16],
}
