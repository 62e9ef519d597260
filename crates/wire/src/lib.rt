// What a link holds as a message on the wire, and what writing its frame answers and leaves: all of it stands in specs/.
// The crate link_frames writes.
#![tactic(auto)]
