// The format of frames, and what the reader that goes by it needs: which field comes next, and a good frame's entries.
// Its functions are for `frames`, which proves what they ask; what the world calls is `frames::read_frame`.
#![tactic(auto)]

pub mod state; // state.rt: which field comes next
pub mod entries; // entries.rt: a good frame's entries, from bytes to the lent slices
pub mod reading; // reading.rt: what reading gives
