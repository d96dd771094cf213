// Answers by name.
use crate::put::Line;
use ring::Numbers;
use ring::codes::LAST_KIND;
use std::fmt;
use std::fmt::{Display, Formatter, Write};

// The refusals from number 1 on, each with its number and name.
const REFUSALS: [&str; 10] = [
    "1 SHAPE",
    "2 DEPTH",
    "3 NOBODY",
    "4 WORN",
    "5 SETUP",
    "6 MARK",
    "7 VERSION",
    "8 SIZES",
    "9 ACTION",
    "10 ROOM",
];

// The names of the kinds that are no refusal, by their codes.
const KINDS: [&str; 23] = [
    "Accepted",
    "Begun",
    "Reserved",
    "Looked",
    "Dropped",
    "Marked",
    "Shared",
    "Retry",
    "Promoted",
    "Standing",
    "Cleared",
    "Pushed",
    "Passed",
    "Filled",
    "Committed",
    "Pending",
    "Event",
    "Empty",
    "Found",
    "Busy",
    "Prepared",
    "Swapped",
    "Missed",
];

// The words for a refusal that has a name.
fn refusal_words(number: u32) -> Option<&'static str> {
    match number {
        0 => None,
        _ => REFUSALS.get(number as usize - 1).copied(),
    }
}

// A refusal: its number in the rules, and its name if it has one. A number and no Refusal, since it may come from an answer's code.
#[derive(Clone, Copy)]
pub(crate) struct Refused(pub u32);

impl Display for Refused {
    fn fmt<W: Write>(&self, f: &mut Formatter<W>) -> fmt::Result {
        match refusal_words(self.0) {
            Some(words) => f.write_str(words),
            None => write!(f, "{}", self.0),
        }
    }
}

// The values that an answer of some kind has.
#[derive(Clone, Copy)]
pub(crate) enum Values {
    None,
    One(u64),
    Two(u64, u64),
}

// By code, as a Kind is printed.
impl From<Numbers> for Values {
    fn from(n: Numbers) -> Values {
        match n.code {
            // Begun, Reserved, Committed
            1 | 2 | 14 => Values::One(n.first),
            // Event
            16 => Values::Two(n.first, n.second),
            _ => Values::None,
        }
    }
}

// Of an answer what has no values is put as bytes, and not by `write!`: a text has a line for each of many actions.
impl Line {
    // The kind of an answer. A code and no Answer: an answer that was kept as its numbers is printed from them, and a tally counts by codes.
    pub(crate) fn kind(&mut self, code: u32) {
        match KINDS.get(code as usize) {
            Some(name) => self.bytes(name.as_bytes()),
            None => {
                self.bytes(b"refused ");
                self.refusal(code - LAST_KIND);
            }
        }
    }

    fn refusal(&mut self, number: u32) {
        match refusal_words(number) {
            Some(words) => self.bytes(words.as_bytes()),
            None => write!(self, "{number}"),
        }
    }

    // An answer from its numbers: its name, and in brackets the values that an answer of its kind has.
    pub(crate) fn answer(&mut self, n: Numbers) {
        self.kind(n.code);
        match Values::from(n) {
            Values::None => (),
            Values::One(first) => write!(self, "({first})"),
            Values::Two(first, second) => write!(self, "({first}, {second})"),
        }
    }
}
