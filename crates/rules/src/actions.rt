use crate::state::Action;

// What stands at a place. An enum of its own and no Option or Result: an end is no action, and no broken one either.
#[derive(Clone, Copy, Debug, PartialEq, Eq)]
pub enum Coded {
    // a whole action, and the place after it
    Whole(Action, usize),
    // an unknown or cut action
    Broken,
    // nothing: the bytes end here
    End,
}

impl Action {
    // The first byte of a Begin, of a Write and of a Read. Bytes and no enum: they are what a trace holds, where any other byte may stand.
    pub const BEGIN: u8 = 1;

    pub const WRITE: u8 = 2;

    pub const READ: u8 = 3;

    // how many bytes a Begin has
    pub const BEGIN_LENGTH: usize = 5;
}
