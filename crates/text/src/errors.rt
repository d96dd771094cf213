// What goes wrong with a file, as lines on standard error. Each begins with the command's name. What follows the file's name is put by each function
// itself: a reason is any bytes, and a refusal a value that prints.
use crate::covers::{Covers, RefusedTrace};
use crate::put::Line;

// The start of a line about a file.
fn start(name: &[u8]) -> Line {
    let mut line = Line::wrong();
    write!(line, "ring: ");
    line.name(name);
    line
}

// The start alone: the caller ends the line, with a colon and the reason.
pub fn error_name(name: &[u8]) {
    start(name).write_part();
}

// A refused trace.
pub fn error_refusal(name: &[u8], covers: Covers) {
    let mut line = start(name);
    write!(line, ": {}", RefusedTrace(covers));
    line.print();
}

// What is wrong with a file as a whole.
pub fn error_line(name: &[u8], reason: &[u8]) {
    let mut line = start(name);
    write!(line, ": ");
    line.bytes(reason);
    line.print();
}

// What is wrong with a line of a file, by the line's number.
pub fn error_at_line(name: &[u8], n: u64, reason: &[u8]) {
    let mut line = start(name);
    write!(line, ": line {n}: ");
    line.bytes(reason);
    line.print();
}
