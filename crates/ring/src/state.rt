// The ring, what its calls give back, and its constants.
use rules::state::{Answer, Counts, Places, ReaderPhase, Size, Writer};

// The ring. Arrays have room for 17 pages of 16 slots; slot s of page p stands at p * S + s. Words and used, numbers and values lie in arrays of their
// own, and the stack keeps its depth beside it, since the rules' State has them so and `state_of` tells each field by itself. What a method asks of a
// ring stands at the method: a ring in shape has it, and no invariant of the type can say it, since a ring that is handed in may be out of shape.
#[derive(Clone, Copy, PartialEq, Eq, Debug)]
pub struct Ring {
    pub size: Size,
    pub places: Places,
    pub counts: Counts,
    // how many records of the stack are in use
    pub depth: u32,
    pub reader: ReaderPhase,
    // writer records, the outermost first
    pub stack: [Writer; 4],
    // for each page, its link word: 4 * (next page) + flag
    pub words: [u32; 17],
    // for each page, how many of its slots are reserved
    pub used: [u32; 17],
    // for each slot, a reading's number and its value
    pub numbers: [u32; 272],
    pub values: [u32; 272],
}

// What an action gives back.
#[derive(Clone, Copy, PartialEq, Eq, Debug)]
pub struct Step {
    pub ring: Ring,
    pub answer: Answer,
}

// What a replay of actions gives back; their answers are in the buffer that was lent.
#[derive(Clone, Copy, PartialEq, Eq, Debug)]
pub struct Replay {
    // after the last action made; the plain ring where the replay was refused before the first
    pub ring: Ring,
    // Accepted, or why the replay was refused: an answer, as that of the set-up which it begins with
    pub answer: Answer,
    // how many actions were made; 0 and no Option where the replay was refused before the first, as `refused_replay` has it, and so for `stop`
    pub made: usize,
    // where they end: the place of the first byte after them, and 0 where the replay was refused before the first
    pub stop: usize,
}

// What a drain gives back beside the elements that it stored: they are the first `count` of the buffer that was lent.
#[derive(Clone, Copy, PartialEq, Eq, Debug)]
pub struct DrainCount {
    pub ring: Ring,
    pub last: Option<Answer>,
    pub count: usize,
}

// The limits, the sizes of the plain ring, the modes and the flags of a link word.
impl Ring {
    pub const LEAST_PAGES: u32 = 2;

    pub const MOST_PAGES: u32 = 16;

    pub const LEAST_SLOTS: u32 = 1;

    pub const MOST_SLOTS: u32 = 16;

    pub const MOST_DEPTH: u32 = 4;

    pub const MOST_COUNT: u64 = 4294967295;

    // Reads in a row with no Event, Empty, Busy or refusal, after which a drain ends.
    pub const MOST_IN_ROW: u32 = 8;

    pub const PLAIN_PAGES: u32 = 8;

    pub const PLAIN_SLOTS: u32 = 16;

    pub const PLAIN_MODE: u32 = Ring::OVERWRITE;

    // The modes are numbers: `fresh` answers SETUP for one that is neither.
    pub const OVERWRITE: u32 = 0;

    pub const STOP: u32 = 1;

    // The flags are numbers: a word is any number, and `flag_in` tells its remainder by 4, which the fourth of these is too.
    pub const NORMAL: u32 = 0;

    pub const HEADER: u32 = 1;

    pub const UPDATE: u32 = 2;

    pub const BOTH_FLAGS: u32 = 3;
}
