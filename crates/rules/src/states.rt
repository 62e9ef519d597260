// The states of a client, in document 01's numbers.
pub const IDLE: u32 = 0;

pub const WRITING: u32 = 1;

// The coordinator is asked for the WRITE's tag.
pub const ENTERING: u32 = 2;

pub const ASKING_KEYS: u32 = 3;

pub const ASKING_SETPOINTS: u32 = 4;

pub const ASKING_ALL: u32 = 5;
