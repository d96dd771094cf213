// An evening: 65537 readings in stop mode, drained through small buffers. The lines of the actions and drains are not printed.
ghost use Rattle.std.specs.Prelude.{◌≤◌};

use crate::many::{Counted, READINGS};
use ring::Answer;
use text::Tally;

// The buffer's elements before a drain, and how many there are.
pub(crate) const OLD: u64 = 18446744073709551615;

pub(crate) const LENT: usize = 64;

// A proved loop has to end; at most 256 readings wait here, and these drains take one each.
const MOST_DRAINS: u32 = 1000;

const LENGTHS: [usize; 8] = [0, 1, 2, 3, 5, 8, 13, LENT];

// Whether this is reading j as it is stored: its number j in the upper half, its value 3 * j + 7 in the lower.
fn is_reading(stored: u64, j: u64) -> bool {
    let value = j.wrapping_mul(3).wrapping_add(7);
    stored == (j << 32).wrapping_add(value)
}

// How many of the elements are the readings from `from` on, each in its place.
fn in_order(part: &[u64], from: u64) -> u64 {
    part.iter()
        .enumerate()
        .filter(|(i, stored)| is_reading(**stored, from.wrapping_add(*i as u64)))
        .count() as u64
}

// How many elements from `count` on are as they were. A count and no slice: that a drain fills at most what it was lent did not prove here, as a slice
// from `count` on would ask.
pub(crate) fn kept(buffer: &[u64; LENT], count: usize) -> u64 {
    buffer
        .iter()
        .skip(count)
        .filter(|element| **element == OLD)
        .count() as u64
}

// How many elements are lent: several small lengths in turn, 0 and 1 among them.
fn length_at(turn: u32) -> usize
    ensures { result ≤ 64 }
{
    LENGTHS[(turn % 8) as usize]
}

// The ring, and what is seen of all drains so far.
#[derive(Drop)]
struct Evening {
    counted: Counted,
    drains: u64,
    // drains with no last answer, and the last answers of the others
    none: u64,
    lasts: Tally,
    stored: u64,
    in_order: u64,
    // elements beyond the part that a drain filled, and as they were
    kept: u64,
}

impl Evening {
    // No derived Default: the ring of an evening is set up, and that has its line.
    fn new() -> Evening {
        Evening {
            counted: Counted::fresh(),
            drains: 0,
            none: 0,
            lasts: text::no_answers(),
            stored: 0,
            in_order: 0,
            kept: 0,
        }
    }

    // Its twin is in the program of random lists: programs share libraries alone, and `text` counts answers, of which no last answer is none.
    fn count_last(&mut self, last: Option<Answer>) {
        match last {
            None => self.none = self.none.wrapping_add(1),
            Some(answer) => text::count_answer(&mut self.lasts, answer),
        }
    }

    // A drain that is lent the first n elements: whether its last answer was an Event. A number and no slice: what was not lent is looked at too.
    fn drain(&mut self, n: usize) -> bool
        requires { n ≤ 64 }
    {
        let mut buffer = [OLD; LENT];
        let d = self.counted.ring.drain(&mut buffer[..n]);
        let last = d.last;
        let after = d.ring;
        let count = d.part.len();
        let ordered = in_order(d.part, self.stored);
        self.counted.ring = after;
        self.count_last(last);
        self.drains = self.drains.wrapping_add(1);
        self.stored = self.stored.wrapping_add(count as u64);
        self.in_order = self.in_order.wrapping_add(ordered);
        self.kept = self.kept.wrapping_add(kept(&buffer, count));
        matches!(last, Some(Answer::Event(_, _)))
    }

    // Reading i, with value 3 * i + 7, and a drain after every fourth one.
    fn reading(&mut self, i: u32)
        requires { i ≤ 65536 }
    {
        self.counted.reading(3 * i + 7);
        if i % 4 == 3 {
            self.drain(length_at(i / 4));
        }
    }

    // Drains of one element, until one brings no Event.
    fn last_drains(&mut self) {
        for _ in 0..MOST_DRAINS {
            if !self.drain(1) {
                return;
            }
        }
    }

    fn print(&self) {
        text::tally(&self.counted.tally);
        text::number_line(b"drains", self.drains);
        text::number_line(b"none", self.none);
        text::tally(&self.lasts);
        text::number_line(b"stored", self.stored);
        text::number_line(b"in order", self.in_order);
        text::number_line(b"kept", self.kept);
        text::receipt(self.counted.ring.size, self.counted.ring.receipt());
    }
}

pub(crate) fn run() {
    text::section(b"An evening of 65537 readings in stop mode, drained through small buffers");
    let mut evening = Evening::new();
    for i in 0..READINGS {
        evening.reading(i);
    }
    evening.last_drains();
    evening.print();
}
