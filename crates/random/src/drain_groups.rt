// Groups of drains: of rings that lists of turns have led to, and of random states.
use crate::digest::Digest;
use crate::drains::{Lasts, drain};
use crate::draws::Generator;
use crate::groups::States;
use crate::lists::{List, Lists};
use ring::{Action, Ring};

const TURNS: u32 = 500;

// An action: its answer folded in, and the ring that came back.
fn act(ring: Ring, action: Action, h: &mut Digest) -> Ring {
    let made = ring.act(action);
    *h = h.answer(made.answer);
    made.ring
}

// Of a hundred turns 15 are Begins, 60 Writes, 10 Reads and 15 drains. A draw chooses, and no closure: a drain takes more than an action.
fn turn(s: &mut Generator, ring: Ring, h: &mut Digest, lasts: &mut Lasts) -> Ring {
    match s.below(100) {
        0..15 => act(ring, Action::Begin(s.any()), h),
        15..75 => act(ring, Action::Write, h),
        75..85 => act(ring, Action::Read, h),
        _ => drain(s, ring, h, lasts),
    }
}

// A list's turns.
fn run_list(mut h: Digest, mut list: List, lasts: &mut Lasts) -> Digest {
    let mut ring = list.made.ring;
    for _ in 0..TURNS {
        ring = turn(&mut list.s, ring, &mut h, lasts);
    }
    h
}

pub(crate) fn run_lists() {
    let mut lasts = Lasts::new();
    text::section(b"Drains of lists: 6720 lists of 500 turns, 14 for each set-up");
    let lists = Lists {
        first_seed: 2000000,
        of_setup: 14,
    };
    lists.each_group(|h, list| run_list(h, list, &mut lasts));
    text::section(b"Last answers of the drains of lists");
    lasts.print();
}

// One drain of a state.
fn run_state(mut h: Digest, mut s: Generator, ring: Ring, lasts: &mut Lasts) -> Digest {
    drain(&mut s, ring, &mut h, lasts);
    h
}

pub(crate) fn run_states() {
    let mut lasts = Lasts::new();
    text::section(b"Drains of states: one of each of 52400 states");
    let states = States {
        first_seed: 3000000,
        of_break: 400,
    };
    states.each_group(|h, s, ring| run_state(h, s, ring, &mut lasts));
    text::section(b"Last answers of the drains of states");
    lasts.print();
}
