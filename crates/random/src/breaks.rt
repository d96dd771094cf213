// A random state out of shape: one in shape with one thing broken. Which of two things it is, is a flag: a break's name stands beside it where it is
// chosen. The generator, the set-up and the ring are three parameters and no struct: the generator is drawn from while the ring is changed.
use crate::draws::{Generator, Setup};
use crate::writers::{reader_phase, seen_phase};
use ring::{PageNo, Ring};
use rules::state::{ReaderPhase, WriterPhase};

// What is broken. The breaks are numbered from 1, in the order of `Break::ALL`.
#[derive(Clone, Copy)]
pub(crate) enum Break {
    // the set-up
    FewPages,
    ManyPages,
    NoSlots,
    ManySlots,
    Mode,
    // the places
    ReaderPage,
    Tail,
    Commit,
    Index,
    Position,
    // a page's word or its used
    NextPage,
    BothFlags,
    Used,
    // the stack: its depth, the tail page and the page after it that a writer saw, the page and the slot that one holds
    Depth,
    TailSeen,
    NextSeen,
    HeldPage,
    HeldSlot,
    // the two pages that the reader found
    HeaderPage,
    HeaderNext,
    // a count past its limit
    Begun,
    Taken,
    Committed,
    Handed,
    Overwritten,
    Dropped,
    // counts that do not agree; in the last two their sum is past 64 bits
    HandedOver,
    CommittedOver,
    DroppedOver,
    HandedMost,
    TakenMost,
}

impl Break {
    pub(crate) const ALL: [Break; 31] = [
        Break::FewPages,
        Break::ManyPages,
        Break::NoSlots,
        Break::ManySlots,
        Break::Mode,
        Break::ReaderPage,
        Break::Tail,
        Break::Commit,
        Break::Index,
        Break::Position,
        Break::NextPage,
        Break::BothFlags,
        Break::Used,
        Break::Depth,
        Break::TailSeen,
        Break::NextSeen,
        Break::HeldPage,
        Break::HeldSlot,
        Break::HeaderPage,
        Break::HeaderNext,
        Break::Begun,
        Break::Taken,
        Break::Committed,
        Break::Handed,
        Break::Overwritten,
        Break::Dropped,
        Break::HandedOver,
        Break::CommittedOver,
        Break::DroppedOver,
        Break::HandedMost,
        Break::TakenMost,
    ];
}

// No slots. What the slots bound is 0 too, and no writer is left to hold one, so that nothing else is out of shape.
fn without_slots(setup: Setup, ring: &mut Ring) {
    ring.size.slots = 0;
    ring.used[..=setup.size.pages as usize].fill(0);
    ring.places.index = 0;
    ring.places.position = 0;
    ring.depth = 0;
}

// This and the two after it are stores at a page, each with draws of its own: what they share is the line that draws the page.
fn break_word(s: &mut Generator, setup: Setup, ring: &mut Ring) {
    let at = s.page(setup).0 as usize;
    ring.words[at] = 4 * s.no_page(setup).0 + s.below(3);
}

// A word with its page kept and both flags set.
fn set_both_flags(s: &mut Generator, setup: Setup, ring: &mut Ring) {
    let at = s.page(setup).0 as usize;
    ring.words[at] |= Ring::BOTH_FLAGS;
}

fn break_used(s: &mut Generator, setup: Setup, ring: &mut Ring) {
    let at = s.page(setup).0 as usize;
    ring.used[at] = s.over(setup.size.slots + 1);
}

// Two pages of which the first, or else the second, is none.
fn broken_pages(s: &mut Generator, setup: Setup, is_first: bool) -> (PageNo, PageNo) {
    if is_first {
        (s.no_page(setup), s.page(setup))
    } else {
        (s.page(setup), s.no_page(setup))
    }
}

// A tail page or a page after it that is none.
fn broken_seen(s: &mut Generator, setup: Setup, is_tail: bool) -> WriterPhase {
    let code = 1 + s.below(4);
    let (t, n) = broken_pages(s, setup, is_tail);
    seen_phase(code, t, n, false)
}

// A held page that is none, or a slot that is none.
fn broken_held(s: &mut Generator, setup: Setup, is_page: bool) -> WriterPhase {
    let slots = setup.size.slots;
    if is_page {
        WriterPhase::Held(s.no_page(setup), s.below(slots))
    } else {
        WriterPhase::Held(s.page(setup), s.over(slots))
    }
}

// Every writer with its value, still to be given a place. A record drawn at or above the old depth may hold any number, and the new depth may let it in.
fn all_wanting(ring: &mut Ring) {
    for w in ring.stack.iter_mut() {
        w.phase = WriterPhase::Want;
    }
}

fn break_depth(s: &mut Generator, ring: &mut Ring) {
    all_wanting(ring);
    ring.depth = s.over(5);
}

// One writer with a phase that is out of shape, the others wanting.
fn break_writer<F: FnOnce(&mut Generator) -> WriterPhase>(
    s: &mut Generator,
    ring: &mut Ring,
    broken: F,
)
    requires { F.IsAlwaysCallable broken }
{
    all_wanting(ring);
    let depth = 1 + s.below(4);
    ring.depth = depth;
    let at = s.below(depth) as usize;
    ring.stack[at].phase = broken(s);
}

fn broken_reader(s: &mut Generator, setup: Setup, is_header: bool) -> ReaderPhase {
    let is_ready = s.below(2) == 1;
    let (p, h) = broken_pages(s, setup, is_header);
    reader_phase(is_ready, p, h)
}

// A count past its limit. It is past 32 bits, so that `over` is none for it.
fn no_count(s: &mut Generator) -> u64 {
    Ring::MOST_COUNT + 1 + u64::from(s.excess())
}

// One more than what is left of a whole without a part.
fn over_rest(whole: u64, part: u64) -> u64 {
    whole.wrapping_sub(part).wrapping_add(1)
}

// What each break is. A match and no table of closures: a row would be as long as an arm, and take three
// arguments where most need one.
pub(crate) fn break_ring(s: &mut Generator, setup: Setup, kind: Break, ring: &mut Ring) {
    let slots = setup.size.slots;
    let c = ring.counts;
    match kind {
        Break::FewPages => ring.size.pages = s.below(2),
        Break::ManyPages => ring.size.pages = s.over(17),
        Break::NoSlots => without_slots(setup, ring),
        Break::ManySlots => ring.size.slots = s.over(17),
        Break::Mode => ring.size.mode = s.over(2),
        Break::ReaderPage => ring.places.reader = s.no_page(setup),
        Break::Tail => ring.places.tail = s.no_page(setup),
        Break::Commit => ring.places.commit = s.no_page(setup),
        Break::Index => ring.places.index = s.over(slots + 1),
        Break::Position => ring.places.position = s.over(slots + 1),
        Break::NextPage => break_word(s, setup, ring),
        Break::BothFlags => set_both_flags(s, setup, ring),
        Break::Used => break_used(s, setup, ring),
        Break::Depth => break_depth(s, ring),
        Break::TailSeen => break_writer(s, ring, |s| broken_seen(s, setup, true)),
        Break::NextSeen => break_writer(s, ring, |s| broken_seen(s, setup, false)),
        Break::HeldPage => break_writer(s, ring, |s| broken_held(s, setup, true)),
        Break::HeldSlot => break_writer(s, ring, |s| broken_held(s, setup, false)),
        Break::HeaderPage => ring.reader = broken_reader(s, setup, true),
        Break::HeaderNext => ring.reader = broken_reader(s, setup, false),
        Break::Begun => ring.counts.begun = no_count(s),
        Break::Taken => ring.counts.taken = no_count(s),
        Break::Committed => ring.counts.committed = no_count(s),
        Break::Handed => ring.counts.handed = no_count(s),
        Break::Overwritten => ring.counts.overwritten = no_count(s),
        Break::Dropped => ring.counts.dropped = no_count(s),
        Break::HandedOver => ring.counts.handed = over_rest(c.committed, c.overwritten),
        Break::CommittedOver => ring.counts.committed = over_rest(c.taken, 0),
        Break::DroppedOver => ring.counts.dropped = over_rest(c.begun, c.taken),
        Break::HandedMost => (ring.counts.handed, ring.counts.overwritten) = (u64::MAX, 1),
        Break::TakenMost => (ring.counts.taken, ring.counts.dropped) = (u64::MAX, 1),
    }
}
