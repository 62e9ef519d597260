// The schedule as text: a line of it, the numbers of a line, and the step that a line names. What is right stands in specs/. The functions
// are those of `line_reading` and `step_reading`.
#![tactic(auto)]

// A line's bytes at most; so its numbers, of two bytes or more each behind its first byte; so its setpoints, behind three numbers.
pub const LINE: usize = 200;

pub const NUMBERS: usize = (LINE - 1) / 2;

pub const SETPOINTS: usize = NUMBERS - 3;

// A number at the front of a part of a line, and how many bytes it takes.
#[derive(Clone, Copy)]
pub struct Numeral {
    pub value: u32,
    pub size: usize,
}

// The step that a line names. Its numbers are full 32-bit numbers: none is cut to a field's width. A badge above 16 bits names no step.
// Kept: `step_of` has Unreadable among the steps, since such a line is played too and answers number 13.
#[derive(Clone, Copy)]
pub enum Step {
    // no step: number 13
    Unreadable,
    // method, servers, clients
    Open(u32, u32, u32),
    // client, mask, badge
    BeginWrite(u32, u32, u16),
    // client, mask
    BeginRead(u32, u32),
    // client, target
    Request(u32, u32),
    // client, target
    Reply(u32, u32),
    // client, target
    Lose(u32, u32),
    // client, target
    Resend(u32, u32),
}

// What reading a line gives: the step, and how many setpoints its line has. They stand in the place that was lent for them.
// Kept: a part of the lent place as the result would take the place along, and `Names` could not say then what stands behind the setpoints.
#[derive(Clone, Copy)]
pub struct Reading {
    pub step: Step,
    pub setpoints: usize,
}
