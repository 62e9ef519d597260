// The lines of a schedule, as definitions in specs/: what is shown of a line's step, and the tables that it leaves.
#![tactic(auto)]

use printing::Word;

// What is printed of a step: its word; for a READ the mask, and the setpoints of the servers with tags and badges of the WRITEs that
// they come from.
#[derive(Clone, Copy)]
pub struct Shown {
    pub word: Word,
    pub mask: u32,
    pub setpoints: [u32; 16],
    pub tags: [u32; 16],
    pub badges: [u32; 16],
}
