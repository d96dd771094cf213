// A random state in shape: its places and its arrays.
use crate::counts::draw_counts;
use crate::draws::{Generator, Setup};
use crate::writers::{draw_reader, draw_stack};
use ring::{PageNo, Ring};
use rules::state::Places;

// The reader page one time in four, else any page, so that the cases in which they are one come often.
fn reader_or_page(s: &mut Generator, setup: Setup, reader: PageNo) -> PageNo {
    if s.is_one_in(4) {
        reader
    } else {
        s.page(setup)
    }
}

fn draw_places(s: &mut Generator, setup: Setup) -> Places {
    let reader = s.page(setup);
    let tail = reader_or_page(s, setup, reader);
    let commit = reader_or_page(s, setup, reader);
    let index = s.below(setup.size.slots + 1);
    let position = s.below(setup.size.slots + 1);
    Places {
        reader,
        tail,
        commit,
        index,
        position,
    }
}

// A word of a page in the ring. A bare ring has no HEADER: a flag, drawn once for all its words.
fn draw_word(s: &mut Generator, setup: Setup, is_bare: bool) -> u32 {
    let next = s.page(setup).0;
    if is_bare {
        4 * next + 2 * s.below(2)
    } else {
        4 * next + s.below(3)
    }
}

// For each page in the ring a number that `draw` makes; for each other any number.
fn draw_pages<F: FnMut(&mut Generator) -> u32>(
    s: &mut Generator,
    setup: Setup,
    mut draw: F,
) -> [u32; 17]
    requires { F.IsAlwaysCallable draw }
{
    let mut pages = [0u32; 17];
    for (p, page) in pages.iter_mut().enumerate() {
        *page = if p <= setup.size.pages as usize {
            draw(s)
        } else {
            s.any()
        };
    }
    pages
}

fn draw_words(s: &mut Generator, setup: Setup) -> [u32; 17] {
    let is_bare = s.is_one_in(3);
    draw_pages(s, setup, |s| draw_word(s, setup, is_bare))
}

// How many slots of a page in the ring are reserved: all of them every other time.
fn draw_full(s: &mut Generator, setup: Setup) -> u32 {
    if s.is_one_in(2) {
        setup.size.slots
    } else {
        s.below(setup.size.slots + 1)
    }
}

fn draw_used(s: &mut Generator, setup: Setup) -> [u32; 17] {
    draw_pages(s, setup, |s| draw_full(s, setup))
}

// Numbers and values of all slots.
fn draw_slots(s: &mut Generator, ring: &mut Ring) {
    for (number, value) in ring.numbers.iter_mut().zip(ring.values.iter_mut()) {
        *number = s.any();
        *value = s.any();
    }
}

// A state in shape with this set-up.
pub(crate) fn draw_ring(s: &mut Generator, setup: Setup) -> Ring {
    let mut ring = Ring::plain();
    ring.size = setup.size;
    ring.places = draw_places(s, setup);
    ring.words = draw_words(s, setup);
    ring.used = draw_used(s, setup);
    ring.depth = s.below(5);
    ring.stack = draw_stack(s, setup, ring.depth, &ring.words);
    ring.reader = draw_reader(s, setup, &ring.words);
    draw_slots(s, &mut ring);
    ring.counts = draw_counts(s);
    ring
}
