// K12: set-ups in and out of range. Then a ring out of shape.
use crate::steps::fresh;
use ring::{Action, Ring};

fn k12() {
    text::section(b"K12");
    let pairs = [(1, 1), (17, 1), (2, 0), (2, 1)];
    for (pages, slots) in pairs {
        fresh(pages, slots, Ring::OVERWRITE);
    }
    fresh(16, 16, Ring::STOP);
}

// A drain into a buffer: its last answer.
fn drain_line(text: &[u8], ring: Ring, buffer: &mut [u64]) {
    if let Some(answer) = ring.drain(buffer).last {
        text::answer_line(text, answer);
    }
}

// Each action is made on the ring itself, not on what the one before gave back.
fn out_of_shape() {
    text::section(b"Out of shape: fresh(2, 1, 0) with its read position set to 2");
    let mut ring = Ring::fresh(2, 1, Ring::OVERWRITE).ring;
    ring.places.position = 2;
    for action in [Action::Begin(70), Action::Write, Action::Read] {
        text::action_line(action, ring.act(action).answer);
    }
    drain_line(b"drain of 0", ring, &mut []);
    drain_line(b"drain of 1", ring, &mut [0]);
    text::receipt(ring.size, ring.receipt());
}

pub(crate) fn run() {
    k12();
    out_of_shape();
}
