// The parts of a ring, and what is asked and answered: types with no function, so that each is read in one place.

// The number of a page, 0 to N. A type of its own, so that it is never taken for a reading's number.
#[derive(Clone, Copy, Debug, Default, PartialEq, Eq)]
pub struct PageNo(pub u32);

// The number of a reading: the first reading that gets a slot has number 0.
#[derive(Clone, Copy, Debug, PartialEq, Eq)]
pub struct ReadingNo(pub u32);

// What a writer does next; t is the tail page that it saw, n the page after it. Two pages and no pair of a type of its own, here, in the reader's
// phases, in moves and in fetches: t and n are no such pair as p and h, and each rule takes the two apart.
#[derive(Clone, Copy, Debug, PartialEq, Eq)]
pub enum WriterPhase {
    Want,
    // t, n
    Mark(PageNo, PageNo),
    // t, n, and whether the update mark is its own: no more than yes or no, so a bool
    Promote(PageNo, PageNo, bool),
    // t, n
    Clear(PageNo, PageNo),
    // t, n
    Push(PageNo, PageNo),
    // the page and the slot that it holds
    Held(PageNo, u32),
    Filled,
}

// A writer's record.
#[derive(Clone, Copy, Debug, PartialEq, Eq)]
pub struct Writer {
    pub value: u32,
    pub phase: WriterPhase,
}

// What the reader does next; p is the page whose word was HEADER, h the page in that word.
#[derive(Clone, Copy, Debug, PartialEq, Eq)]
pub enum ReaderPhase {
    Idle,
    // p, h
    Found(PageNo, PageNo),
    // p, h
    Ready(PageNo, PageNo),
}

// The set-up: N ring pages (there is one page more, the reader page), S slots in each page, and the mode.
#[derive(Clone, Copy, Debug, PartialEq, Eq)]
pub struct Size {
    pub pages: u32,
    pub slots: u32,
    // A number and no enum: Ring::fresh answers SETUP for a mode that is none, and a ring with such a mode is a ring out of shape.
    pub mode: u32,
}

// Where the ring stands: reader page, tail page, commit page with the commit index, and the read position on the reader page.
#[derive(Clone, Copy, Debug, Default, PartialEq, Eq)]
pub struct Places {
    pub reader: PageNo,
    pub tail: PageNo,
    pub commit: PageNo,
    pub index: u32,
    pub position: u32,
}

// The counts. 64 bits wide, since a count that a step takes past 4,294,967,295 is kept as it is.
#[derive(Clone, Copy, Debug, Default, PartialEq, Eq)]
pub struct Counts {
    pub begun: u64,
    pub taken: u64,
    pub committed: u64,
    pub handed: u64,
    pub overwritten: u64,
    pub dropped: u64,
}

// Why an action, a receipt, a set-up or a trace is refused, by its number in the rules.
#[derive(Clone, Copy, Debug, PartialEq, Eq)]
pub enum Refusal {
    Shape = 1,
    Depth = 2,
    Nobody = 3,
    Worn = 4,
    SetUp = 5,
    // of a trace: it is too long, or its mark is wrong or cut
    Mark = 6,
    // of a trace: its version
    Version = 7,
    // of a trace: its set-up is cut, or out of range
    Sizes = 8,
    // of a trace: an unknown or cut action
    Action = 9,
    // the buffer that was lent is too short
    Room = 10,
}

// What an action or a set-up answers.
#[derive(Clone, Copy, Debug, PartialEq, Eq)]
pub enum Answer {
    // a set-up that is not refused
    Accepted,
    // the new depth
    Begun(u32),
    Reserved(ReadingNo),
    Looked,
    Dropped,
    Marked,
    Shared,
    Retry,
    Promoted,
    Standing,
    Cleared,
    Pushed,
    Passed,
    Filled,
    // how many readings are committed
    Committed(u64),
    Pending,
    // a reading's number and value
    Event(ReadingNo, u32),
    Empty,
    Found,
    Busy,
    Prepared,
    Swapped,
    Missed,
    Refused(Refusal),
}

// One action.
#[derive(Clone, Copy, Debug, PartialEq, Eq)]
pub enum Action {
    Begin(u32),
    Write,
    Read,
}

// The receipt. `refusal` is the number of the refusal, 0 for a receipt that is not refused; a refused receipt is all zero and not complete. A number and no
// Option: the text of a receipt is of any number that stands here.
#[derive(Clone, Copy, Debug, Default, PartialEq, Eq)]
pub struct Receipt {
    pub refusal: u32,
    pub begun: u64,
    pub taken: u64,
    pub handed: u64,
    pub overwritten: u64,
    pub dropped: u64,
    pub waiting: u64,
    pub open: u64,
    pub complete: bool,
}
