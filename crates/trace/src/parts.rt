// The parts of a trace: constants, with no function, so that each is read in one place.

// the most bytes of a trace
pub const MOST_LENGTH: usize = 65536;

// where the set-up ends, and the first action begins
pub const FIRST_ACTION: usize = 8;

// the version, in two bytes
pub const VERSION: u16 = 1;

// the mode byte that stands for the plain ring's mode
pub const PLAIN_BYTE: u8 = 2;
