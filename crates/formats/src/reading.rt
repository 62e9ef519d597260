// What reading gives: of a field, and of a frame's bytes. The functions are those of `frame_faults` and `format_reading`.
use frame_table::FIXED_FIELDS;

// A field as it was read: its bits, and its value.
#[derive(Clone, Copy)]
pub struct Took {
    pub width: usize,
    pub value: u32,
}

// What reading found: how many values there are, and the fixed ones.
#[derive(Clone, Copy)]
pub struct Scan {
    pub fields: usize,
    pub fixed: [u32; FIXED_FIELDS],
}
