// A recording of a wire: the lengths of its frames, and their bytes end to end. When it is well made, its frames by link, and two compared,
// as definitions with their laws; the functions stand in `recorded_frames`, and `comparing` compares two.
#![tactic(auto)]

// Sixteen stations and the head.
pub const TARGETS: u32 = 17;
// Sixteen panels, each with its targets.
pub const LINKS: u32 = 272;

// A recording: the lengths of its frames, and their bytes end to end.
#[derive(Clone, Copy)]
pub struct Recording<'a> {
    pub lengths: &'a [u32],
    pub bytes: &'a [u8],
}

// The first difference of two recordings: the client, the target, and the place on that link.
#[derive(Clone, Copy)]
pub struct Difference {
    pub client: u8,
    pub target: u8,
    pub place: u32,
}

// Where a recording is followed: its next frame, and where that begins.
#[derive(Clone, Copy)]
pub struct Cursor {
    pub frame: usize,
    pub at: usize,
}
