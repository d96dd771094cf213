// How a program ended. It has no exit status of its own, so that it tells one to a descriptor beside the three that every program has, where the command
// listens. Where nobody does, nothing is told.
const STATUS_FILENO: i32 = 3;

// What a program has to tell, the worst last. What is told is its number, as a digit.
#[derive(Clone, Copy, Debug, PartialEq, Eq)]
pub enum Status {
    // all was read whole
    Whole,
    // something was refused, or could not be read
    Refused,
    // it was called in another way than it can be
    WrongUse,
    // something could not be written
    NotWritten,
}

// The digit, and nothing more.
pub fn tell(status: Status) {
    let digit = b'0' + status as u8;
    io::write_all(STATUS_FILENO, &[digit]);
}
