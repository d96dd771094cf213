// One drain of a ring, drawn, made and folded in, and the last answers of many.
ghost use Rattle.std.specs.Prelude.{◌≤◌};

use crate::digest::Digest;
use crate::draws::Generator;
use ring::{Answer, Ring};
use text::Tally;

// The last answers of many drains.
#[derive(Drop)]
pub(crate) struct Lasts {
    // drains with no last answer
    none: u64,
    tally: Tally,
}

impl Lasts {
    // No derived Default: the empty tally is that of `text`.
    pub(crate) fn new() -> Lasts {
        Lasts {
            none: 0,
            tally: text::no_answers(),
        }
    }

    // One more last answer, or one more drain that has none. Its twin is in the program of cases: programs share libraries alone, and `text` counts
    // answers, of which no last answer is none.
    fn count(&mut self, last: Option<Answer>) {
        match last {
            None => self.none = self.none.wrapping_add(1),
            Some(answer) => text::count_answer(&mut self.tally, answer),
        }
    }

    pub(crate) fn print(&self) {
        text::number_line(b"none", self.none);
        text::tally(&self.tally);
    }
}

// How much is lent: few elements every other time, so that a drain often ends with its buffer full.
fn draw_length(s: &mut Generator) -> u32
    ensures { result ≤ 40 }
{
    if s.is_one_in(2) {
        s.below(4)
    } else {
        s.below(41)
    }
}

// No two elements are alike, so that one that is not kept or is stored elsewhere is seen.
fn draw_buffer(s: &mut Generator) -> [u64; 40] {
    let before = u64::from(s.any()) << 32;
    std::array::from_fn(|j| before + (j as u64))
}

// A drain of a ring: what it gave folded in, its last answer counted, and the ring that came back.
pub(crate) fn drain(s: &mut Generator, ring: Ring, h: &mut Digest, lasts: &mut Lasts) -> Ring {
    let n = draw_length(s) as usize;
    let mut buffer = draw_buffer(s);
    let into = ring.drain_into(&mut buffer[..n]);
    lasts.count(into.last);
    *h = h
        .last(into.last)
        .buffer(into.count, &buffer)
        .ring(&into.ring);
    into.ring
}
