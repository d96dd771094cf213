// The stack and the reader of a random state. The generator, the set-up and the words are three parameters and no struct: the generator alone is changed,
// and a struct would be taken apart in each function. A phase is drawn as a number, and whether a record is below the depth, or a reader ready, is a flag:
// an enum would only stand between a draw and its match.
use crate::draws::{Generator, Setup};
use ring::PageNo;
use ring::words::page_in;
use rules::state::{ReaderPhase, Writer, WriterPhase};
use std::array;

// The phase that a drawn number from 1 to 4 stands for, with its tail page and the page after it. A number and no enum: it is a draw's.
pub(crate) fn seen_phase(code: u32, t: PageNo, n: PageNo, own: bool) -> WriterPhase {
    match code {
        1 => WriterPhase::Mark(t, n),
        2 => WriterPhase::Promote(t, n, own),
        3 => WriterPhase::Clear(t, n),
        _ => WriterPhase::Push(t, n),
    }
}

pub(crate) fn reader_phase(is_ready: bool, p: PageNo, h: PageNo) -> ReaderPhase {
    if is_ready {
        ReaderPhase::Ready(p, h)
    } else {
        ReaderPhase::Found(p, h)
    }
}

// A page, and the page in its word every other time, so that words are often found as they were seen; else any page.
fn two_pages(s: &mut Generator, setup: Setup, words: &[u32; 17]) -> (PageNo, PageNo) {
    let p = s.page(setup);
    let next = if s.is_one_in(2) {
        page_in(words[p.0 as usize])
    } else {
        s.page(setup)
    };
    (p, next)
}

fn any_two(s: &mut Generator) -> (PageNo, PageNo) {
    (PageNo(s.any()), PageNo(s.any()))
}

// A page and a slot. At or above the depth they are any numbers, as the pages of `draw_seen` are.
fn draw_held(s: &mut Generator, setup: Setup, is_inside: bool) -> WriterPhase {
    if is_inside {
        WriterPhase::Held(s.page(setup), s.below(setup.size.slots))
    } else {
        WriterPhase::Held(PageNo(s.any()), s.any())
    }
}

// A tail and a page after it.
fn draw_seen(
    s: &mut Generator,
    setup: Setup,
    code: u32,
    is_inside: bool,
    words: &[u32; 17],
) -> WriterPhase {
    let (t, n) = if is_inside {
        two_pages(s, setup, words)
    } else {
        any_two(s)
    };
    let own = code == 2 && s.below(2) == 1;
    seen_phase(code, t, n, own)
}

fn draw_phase(s: &mut Generator, setup: Setup, is_inside: bool, words: &[u32; 17]) -> WriterPhase {
    match s.below(7) {
        0 => WriterPhase::Want,
        5 => draw_held(s, setup, is_inside),
        6 => WriterPhase::Filled,
        code => draw_seen(s, setup, code, is_inside, words),
    }
}

pub(crate) fn draw_stack(
    s: &mut Generator,
    setup: Setup,
    depth: u32,
    words: &[u32; 17],
) -> [Writer; 4] {
    array::from_fn(|i| {
        let value = s.any();
        let phase = draw_phase(s, setup, i < depth as usize, words);
        Writer { value, phase }
    })
}

pub(crate) fn draw_reader(s: &mut Generator, setup: Setup, words: &[u32; 17]) -> ReaderPhase {
    let code = s.below(3);
    if code == 0 {
        return ReaderPhase::Idle;
    }
    let (p, h) = two_pages(s, setup, words);
    reader_phase(code == 2, p, h)
}
