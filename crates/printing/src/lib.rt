// What the programs print: answers, the register's lines, and steps as the lines of a schedule. What is right stands in specs/. The
// functions are those of `number_text`, `server_text`, `answer_text`, `record_text` and `step_text`.
#![tactic(auto)]

ghost use Rattle.std.specs.Prelude.{◌≤◌, length};

// The longest answer in bytes, made as `Sizes` makes it: the line's number, ` read`, the tag, each station with its setpoint, tag and
// badge, and byte 10.
const MARKED: usize = 1 + 10;

const SERVER: usize = 1 + 2 + MARKED + MARKED + MARKED;

pub const ANSWER: usize = 20 + (5 + MARKED + 16 * SERVER) + 1;

// What a step answers, in the words that are printed.
// Kept: `word_text` and what is played go by these six words, one for each form of an answer's line; a refusal is one of them.
#[derive(Clone, Copy)]
pub enum Word {
    Ok,
    Wait,
    Next,
    // with the tag
    Write(u32),
    // with the tag; setpoints, tags and badges stand beside it
    Read(u32),
    // refused, with the number
    No(u32),
}

// The servers that a READ's answer shows: those of the mask, each with its setpoint, and with tag and badge of the WRITE that it comes from.
// Each row has a word for all 16.
#[derive(Clone, Copy)]
pub struct Servers<'a> {
    pub mask: u32,
    pub setpoints: &'a [u32],
    pub tags: &'a [u32],
    pub badges: &'a [u32],
    ghost setpoints_of_all: { 16 ≤ length setpoints.now },
    ghost tags_of_all: { 16 ≤ length tags.now },
    ghost badges_of_all: { 16 ≤ length badges.now },
}
