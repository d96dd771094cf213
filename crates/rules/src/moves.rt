// What a Write or a Read decides, before it changes anything. Whether an action is refused is a `Result<(), Refusal>`.
use crate::state::{Answer, PageNo, WriterPhase};

// What a Write does.
#[derive(Clone, Copy, Debug, PartialEq, Eq)]
pub enum Move {
    // only the record's phase changes
    Become(WriterPhase, Answer),
    // the page and the slot that the reading gets
    Reserve(PageNo, u32),
    Drop,
    // the outermost writer's drop, which commits as its own commit would
    DropCommit,
    // t, n: t's word gets the update mark, and page n is taken
    Mark(PageNo, PageNo),
    // n, whose word becomes HEADER, and the record's next phase
    Promote(PageNo, WriterPhase),
    // t, n: t's word becomes n NORMAL
    Clear(PageNo, PageNo),
    // the new tail page
    Push(PageNo),
    // the page and the slot that the value goes into
    Fill(PageNo, u32),
    Pend,
    Commit,
}

// What a Read does.
#[derive(Clone, Copy, Debug, PartialEq, Eq)]
pub enum Fetch {
    // the slot at the read position is handed out
    Event,
    Empty,
    Busy,
    // p, h
    Find(PageNo, PageNo),
    // p, h
    Prepare(PageNo, PageNo),
    // p, h
    Swap(PageNo, PageNo),
    Miss,
}
