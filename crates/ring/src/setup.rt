// Set-up: the fresh ring and the plain ring.
ghost use Rattle.std.specs.Prelude.{◌≡◌, ◌≤◌};
ghost use Rattle.rules.specs.Limits.{most_pages};
ghost use Rattle.rules.specs.State.{size_of, blank};
ghost use Rattle.rules.specs.Shape.{size_fits};
ghost use Rattle.rules.specs.SetUp.{fresh_next, fresh_flag, fresh_word, fresh_words, fresh_ring, plain_ring, fresh_rule};
ghost use Rattle.ring.specs.Ring.{outcome, state_of};

use crate::cells::wanting;
use crate::shape::size_fits;
use crate::state::{Ring, Step};
use crate::words::word_of;
use rules::state::{Answer, Counts, PageNo, Places, ReaderPhase, Refusal, Size};

// The page in the word of page i, in a fresh ring of n pages. That i is one of the 17 is asked of these three alone, for i + 1: no type of its own.
fn fresh_next(n: u32, i: u32) -> u32
    requires { i ≤ most_pages }
    ensures { result ≡ fresh_next n i }
{
    if i + 1 < n { i + 1 } else { 0 }
}

// The flag in it.
fn fresh_flag(n: u32, i: u32) -> u32
    requires { i ≤ most_pages }
    ensures { result ≡ fresh_flag n i }
{
    if i + 1 == n {
        Ring::HEADER
    } else {
        Ring::NORMAL
    }
}

fn fresh_word(n: u32, i: u32) -> u32
    requires { i ≤ most_pages }
    ensures { result ≡ fresh_word n i }
{
    let next = fresh_next(n, i);
    let flag = fresh_flag(n, i);
    word_of(PageNo(next), flag) as u32
}

// A `for` and no `from_fn`: what that promises did not prove to be the rules' `tabulate`.
fn fresh_words(n: u32) -> [u32; 17]
    ensures { result ≡ fresh_words n }
{
    let mut words = [0u32; 17];
    for i in 0..17 {
        words[i as usize] = fresh_word(n, i);
    }
    words
}

impl Ring {
    // A ring of zeros.
    fn blank(size: Size) -> Ring
        ensures { state_of result ≡ blank size }
    {
        Ring {
            size,
            places: Places::default(),
            counts: Counts::default(),
            depth: 0,
            reader: ReaderPhase::Idle,
            stack: [wanting(0); 4],
            words: [0; 17],
            used: [0; 17],
            numbers: [0; 272],
            values: [0; 272],
        }
    }

    // The fresh ring of a size.
    fn fresh_ring(size: Size) -> Ring
        ensures { state_of result ≡ fresh_ring size }
    {
        let mut ring = Ring::blank(size);
        ring.places.reader = PageNo(size.pages);
        ring.words = fresh_words(size.pages);
        ring
    }

    // 8 pages of 16 slots in overwrite mode.
    pub fn plain() -> Ring
        ensures { state_of result ≡ plain_ring }
    {
        Ring::fresh_ring(Size {
            pages: Ring::PLAIN_PAGES,
            slots: Ring::PLAIN_SLOTS,
            mode: Ring::PLAIN_MODE,
        })
    }

    // Whether `fresh` accepts these: N, S and mode in range. Three numbers and no Size, here and in `fresh`: any are answered.
    pub fn accepts(pages: u32, slots: u32, mode: u32) -> bool
        ensures { result ≡ size_fits (size_of pages slots mode) }
    {
        size_fits(Size { pages, slots, mode })
    }

    // The fresh ring with `pages` ring pages of `slots` slots, in mode 0 (overwrite) or 1 (stop); refused with the plain ring where one of the
    // three is out of range.
    pub fn fresh(pages: u32, slots: u32, mode: u32) -> Step
        ensures { outcome result ≡ fresh_rule pages slots mode }
    {
        let size = Size { pages, slots, mode };
        if size_fits(size) {
            return Step {
                ring: Ring::fresh_ring(size),
                answer: Answer::Accepted,
            };
        }
        Step {
            ring: Ring::plain(),
            answer: Answer::Refused(Refusal::SetUp),
        }
    }
}
