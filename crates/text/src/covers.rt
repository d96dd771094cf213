// What a receipt is of: a ring, or what was read of a trace.
ghost use Rattle.std.specs.Prelude.{◌≡◌};
ghost use Rattle.text.specs.Covers.{is_whole, has_ring};

use crate::names::Refused;
use crate::put::Many;
use std::fmt;
use std::fmt::{Display, Formatter, Write};

// The most bytes that a trace has. A longer one is told as longer, and not how long it is.
const MOST_LENGTH: u64 = 65536;

// The refusals of a trace, by their numbers in the rules. A number and no Refusal here: what is said of a trace is said of any number.
const MARK: u32 = 6;

const VERSION: u32 = 7;

const SIZES: u32 = 8;

// Of these the one that has a ring all the same, and whose place is said: an unknown or cut action.
const ACTION: u32 = 9;

// What was read of a trace.
#[derive(Clone, Copy)]
pub struct Covers {
    // how many bytes it has; one more than a trace may have stands for any that is longer
    pub bytes: u64,
    // the number of its refusal, 0 for none
    pub refusal: u32,
    // how many bytes were read as header and whole actions. 0 and no None where no ring was set up: so a replay tells it, and so it is printed.
    pub stop: u64,
}

impl Covers {
    // Whether the trace was not refused.
    pub fn is_whole(self) -> bool
        ensures { result ≡ is_whole self.refusal }
    {
        self.refusal == 0
    }

    // Whether a ring was set up: a trace that is refused for its actions has a set-up all the same.
    pub fn has_ring(self) -> bool
        ensures { result ≡ has_ring self.refusal }
    {
        self.refusal == 0 || self.refusal == ACTION
    }

    fn is_too_long(self) -> bool {
        MOST_LENGTH < self.bytes
    }
}

// A trace's refusal: where it is and what is wrong.
#[derive(Clone, Copy)]
pub(crate) struct RefusedTrace(pub Covers);

impl Display for RefusedTrace {
    fn fmt<W: Write>(&self, f: &mut Formatter<W>) -> fmt::Result {
        let covers = self.0;
        let stop = covers.stop;
        write!(f, "refused {}", Refused(covers.refusal))?;
        match covers.refusal {
            MARK if covers.is_too_long() => f.write_str(": longer than 65536 bytes"),
            MARK => f.write_str(": no mark PTR at its start"),
            VERSION => f.write_str(": other than 1, or cut"),
            SIZES => f.write_str(": N, S or mode out of range, or cut"),
            ACTION => write!(f, " at byte {stop}: unknown or cut"),
            _ => Ok(()),
        }
    }
}

// How long a trace is, and how much of it was read.
#[derive(Clone, Copy)]
pub(crate) struct Extent(pub Covers);

impl Display for Extent {
    fn fmt<W: Write>(&self, f: &mut Formatter<W>) -> fmt::Result {
        let covers = self.0;
        let stop = covers.stop;
        if covers.is_too_long() {
            f.write_str("more than 65536 bytes")?;
        } else {
            write!(f, "{}", Many(covers.bytes, "byte"))?;
        }
        if covers.is_whole() {
            return f.write_str(", read whole");
        }
        write!(f, ", refused {}", Refused(covers.refusal))?;
        if covers.has_ring() {
            write!(f, ": read up to byte {stop}")
        } else {
            f.write_str(": nothing read")
        }
    }
}
