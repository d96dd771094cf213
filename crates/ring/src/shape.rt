// The test of shape. Each clause has a function of its own. Tests are joined by `&`, since none of them can trap, and a loop goes through all of its
// places. Tests of a piece take it by value, and the size, as the rules of their names do, and those of an array or of more are methods.
ghost use Rattle.std.specs.Prelude.{◌≡◌, ◌≤◌};
ghost use Rattle.rules.specs.Limits.{most_pages};
ghost use Rattle.rules.specs.Shape.{size_fits, places_fit, counts_small, counts_fit, pages_fit, held_fits, writer_fits, reader_fits, stack_fits, word_fits, words_fit, used_fit, layout_fits, ring_fits, in_shape};
ghost use Rattle.ring.specs.Ring.{state_of};

use crate::state::Ring;
use crate::words::{flag_in, page_in};
use rules::state::{Counts, PageNo, Places, ReaderPhase, Size, Writer, WriterPhase};

pub(crate) fn size_fits(s: Size) -> bool
    ensures { result ≡ size_fits s }
{
    (Ring::LEAST_PAGES <= s.pages)
        & (s.pages <= Ring::MOST_PAGES)
        & (Ring::LEAST_SLOTS <= s.slots)
        & (s.slots <= Ring::MOST_SLOTS)
        & (s.mode <= Ring::STOP)
}

// By `.0`, here and below: a page is compared with a number of pages, which is no page.
fn places_fit(p: Places, s: Size) -> bool
    ensures { result ≡ places_fit p s }
{
    (p.reader.0 <= s.pages)
        & (p.tail.0 <= s.pages)
        & (p.commit.0 <= s.pages)
        & (p.index <= s.slots)
        & (p.position <= s.slots)
}

// Six lines, one for each count, as in the rule: an array of them would list them too.
fn counts_small(c: Counts) -> bool
    ensures { result ≡ counts_small c }
{
    (c.begun <= Ring::MOST_COUNT)
        & (c.taken <= Ring::MOST_COUNT)
        & (c.committed <= Ring::MOST_COUNT)
        & (c.handed <= Ring::MOST_COUNT)
        & (c.overwritten <= Ring::MOST_COUNT)
        & (c.dropped <= Ring::MOST_COUNT)
}

// The sums are taken only of counts that are small, so that they do not wrap.
pub(crate) fn counts_fit(c: Counts) -> bool
    ensures { result ≡ counts_fit c }
{
    if counts_small(c) {
        (c.handed + c.overwritten <= c.committed)
            & (c.committed <= c.taken)
            & (c.taken + c.dropped <= c.begun)
    } else {
        false
    }
}

fn pages_fit(p: PageNo, q: PageNo, n: u32) -> bool
    ensures { result ≡ pages_fit p q n }
{
    (p.0 <= n) & (q.0 <= n)
}

fn held_fits(p: PageNo, slot: u32, s: Size) -> bool
    ensures { result ≡ held_fits p slot s }
{
    (p.0 <= s.pages) & (slot < s.slots)
}

fn writer_fits(phase: WriterPhase, s: Size) -> bool
    ensures { result ≡ writer_fits phase s }
{
    match phase {
        WriterPhase::Want | WriterPhase::Filled => true,
        WriterPhase::Mark(t, n)
        | WriterPhase::Promote(t, n, _)
        | WriterPhase::Clear(t, n)
        | WriterPhase::Push(t, n) => pages_fit(t, n, s.pages),
        WriterPhase::Held(p, slot) => held_fits(p, slot, s),
    }
}

fn reader_fits(phase: ReaderPhase, s: Size) -> bool
    ensures { result ≡ reader_fits phase s }
{
    match phase {
        ReaderPhase::Idle => true,
        ReaderPhase::Found(p, h) | ReaderPhase::Ready(p, h) => pages_fit(p, h, s.pages),
    }
}

fn word_fits(w: u32, n: u32) -> bool
    ensures { result ≡ word_fits w n }
{
    let p = page_in(w);
    (p.0 <= n) & (flag_in(w) != Ring::BOTH_FLAGS)
}

// Three loops, alike but for the array that they read, and no `iter().all(..)`: what `all` promises did not prove to be the rules' `all_below`.
impl Ring {
    fn stack_fits(&self) -> bool
        ensures { result ≡ stack_fits self.now.stack self.now.depth self.now.size }
    {
        if Ring::MOST_DEPTH < self.depth {
            return false;
        }
        let mut ok = true;
        for i in 0..self.depth as usize {
            ok &= writer_fits(self.stack[i].phase, self.size);
        }
        ok
    }

    fn words_fit(&self) -> bool
        requires { self.now.size.pages ≤ most_pages }
        ensures { result ≡ words_fit self.now.words self.now.size.pages }
    {
        let n = self.size.pages;
        let mut ok = true;
        for p in 0..=n as usize {
            ok &= word_fits(self.words[p], n);
        }
        ok
    }

    fn used_fit(&self) -> bool
        requires { self.now.size.pages ≤ most_pages }
        ensures { result ≡ used_fit self.now.used self.now.size.pages self.now.size.slots }
    {
        let mut ok = true;
        for p in 0..=self.size.pages as usize {
            ok &= self.used[p] <= self.size.slots;
        }
        ok
    }

    // All of the shape but the counts and the slots' numbers: where things stand.
    fn layout_fits(&self) -> bool
        ensures { result ≡ layout_fits self.now.size self.now.places self.now.reader self.now.stack self.now.depth self.now.words self.now.used }
    {
        if size_fits(self.size) {
            places_fit(self.places, self.size)
                & reader_fits(self.reader, self.size)
                & self.stack_fits()
                & self.words_fit()
                & self.used_fit()
        } else {
            false
        }
    }

    // All of the shape but the slots' numbers, which are 32 bits wide and meet their limit by their type.
    pub(crate) fn fits(&self) -> bool
        ensures { result ≡ ring_fits (state_of self.now) }
    {
        counts_fit(self.counts) & self.layout_fits()
    }

    // Whether the ring is in shape.
    pub fn in_shape(self) -> bool
        ensures { result ≡ in_shape (state_of self) }
    {
        self.fits()
    }
}
