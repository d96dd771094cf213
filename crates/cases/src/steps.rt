// A ring whose actions are printed, a line each.
use ring::{Action, Ring};

// A set-up and its line; the ring that it gives. Three numbers and no Size, as `Ring::fresh` takes them: some are out of range.
pub(crate) fn fresh(pages: u32, slots: u32, mode: u32) -> Ring {
    let made = Ring::fresh(pages, slots, mode);
    text::fresh_line(pages, slots, mode, made.answer);
    made.ring
}

// A ring of which each action is printed.
#[derive(Drop)]
pub(crate) struct Shown {
    pub(crate) ring: Ring,
}

impl Shown {
    // The paper's small ring: two pages of one slot, in overwrite mode.
    pub(crate) fn small_ring() -> Shown {
        Shown {
            ring: fresh(2, 1, Ring::OVERWRITE),
        }
    }

    // One action and its line.
    fn step(&mut self, action: Action) {
        let made = self.ring.act(action);
        text::action_line(action, made.answer);
        self.ring = made.ring;
    }

    pub(crate) fn begin(&mut self, value: u32) {
        self.step(Action::Begin(value));
    }

    pub(crate) fn write(&mut self) {
        self.step(Action::Write);
    }

    pub(crate) fn writes(&mut self, n: u32) {
        for _ in 0..n {
            self.write();
        }
    }

    pub(crate) fn read(&mut self) {
        self.step(Action::Read);
    }

    // The words of the ring's pages.
    pub(crate) fn words_line(&self) {
        text::words_line(&self.ring.words, self.ring.size.pages);
    }

    pub(crate) fn commit_line(&self) {
        text::commit_line(self.ring.places.commit.0, self.ring.places.index);
    }

    pub(crate) fn receipt(&self) {
        text::receipt(self.ring.size, self.ring.receipt());
    }
}
