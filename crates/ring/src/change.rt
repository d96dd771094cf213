// What an action of any kind leaves, decided on a ring in shape, and storing it. The shape is not tested here.
ghost use Rattle.std.specs.Prelude.{◌≡◌, ◌≤◌, ◌<◌};
ghost use Rattle.rules.specs.Limits.{most_depth, most_count};
ghost use Rattle.ring.specs.Pieces.{StoresPrecondition};
ghost use Rattle.rules.specs.State.{top};
ghost use Rattle.ring.specs.Change.{unchanged, begin_change, moved_change, write_change, read_change, change_of, changed, MovedPrecondition, WritePrecondition, ReadPrecondition, ChangePrecondition};
ghost use Rattle.ring.specs.Ring.{state_of};

use crate::cells::wanting;
use crate::pieces::{Stores, read_handed, read_places, record_after};
use crate::state::Ring;
use rules::moves::Move;
use rules::state::{Action, Answer, Counts, Places, ReaderPhase, Writer};

// All that an action of any kind leaves: its answer, and each piece of the ring as it then is. A piece that stays is stored as it was. The pieces
// stand apart, so that all are decided on the ring as it was before one of them is stored.
#[derive(Clone, Copy, PartialEq, Eq, Debug)]
pub struct Change {
    pub answer: Answer,
    // a place of the stack, and the record that it gets
    pub at: usize,
    pub writer: Writer,
    pub counts: Counts,
    pub places: Places,
    pub depth: u32,
    pub reader: ReaderPhase,
    pub stores: Stores,
}

impl Ring {
    // An answer, and nothing else.
    fn unchanged(&self, answer: Answer) -> Change
        requires { self.now.depth ≤ most_depth }
        ensures { result ≡ unchanged answer (top (state_of self.now)) self.now.places self.now.counts self.now.depth self.now.reader }
    {
        Change {
            answer,
            at: self.top_at(),
            writer: self.top(),
            counts: self.counts,
            places: self.places,
            depth: self.depth,
            reader: self.reader,
            stores: Stores::Same,
        }
    }

    fn begin_change(&self, value: u32) -> Change
        requires { (self.now.depth ≤ most_depth) × (self.now.counts.begun ≤ most_count) }
        ensures { result ≡ begin_change value (top (state_of self.now)) self.now.places self.now.counts self.now.depth self.now.reader }
    {
        if let Err(why) = self.begin_verdict() {
            return self.unchanged(Answer::Refused(why));
        }
        let mut next = self.unchanged(Answer::Begun(self.depth + 1));
        next.at = self.depth as usize;
        next.writer = wanting(value);
        next.counts.begun = self.counts.begun + 1;
        next.depth = self.depth + 1;
        next
    }

    // A Write that is allowed, by the move that was decided.
    fn moved_change(&self, m: Move) -> Change
        requires { (self.now.depth ≤ most_depth) × MovedPrecondition m self.now.places self.now.counts self.now.depth }
        ensures { result ≡ moved_change m (top (state_of self.now)) self.now.size self.now.places self.now.counts self.now.depth self.now.reader self.now.words self.now.used }
    {
        let w = self.top();
        Change {
            answer: self.answer_after(m),
            at: self.top_at(),
            writer: record_after(m, w.value),
            counts: self.counts_after(m),
            places: self.places_after(m),
            depth: self.depth_after(m),
            reader: self.reader,
            stores: self.stores_after(m, w.value),
        }
    }

    fn write_change(&self) -> Change
        requires { (self.now.depth ≤ most_depth) × WritePrecondition (top (state_of self.now)) self.now.size self.now.places self.now.counts self.now.depth self.now.words self.now.used }
        ensures { result ≡ write_change (top (state_of self.now)) self.now.size self.now.places self.now.counts self.now.depth self.now.reader self.now.words self.now.used }
    {
        if let Err(why) = self.write_verdict() {
            return self.unchanged(Answer::Refused(why));
        }
        self.moved_change(self.plan_phase(self.top().phase))
    }

    fn read_change(&self) -> Change
        requires { (self.now.depth ≤ most_depth) × ReadPrecondition self.now.size self.now.places self.now.counts self.now.reader self.now.words self.now.used }
        ensures { result ≡ read_change (top (state_of self.now)) self.now.size self.now.places self.now.counts self.now.depth self.now.reader self.now.words self.now.used self.now.numbers self.now.values }
    {
        let f = self.plan_reader();
        let mut next = self.unchanged(self.read_answer(f, self.places));
        next.counts.handed = read_handed(f, self.counts.handed);
        next.places = read_places(f, self.places);
        next.reader = self.read_phase(f);
        next.stores = self.read_stores(f);
        next
    }

    // A match on the action, as there are these three and no others.
    pub(crate) fn change_by(&self, action: Action) -> Change
        requires { (self.now.depth ≤ most_depth) × ChangePrecondition action (top (state_of self.now)) self.now.size self.now.places self.now.counts self.now.depth self.now.reader self.now.words self.now.used }
        ensures { result ≡ change_of (state_of self.now) action }
    {
        match action {
            Action::Begin(value) => self.begin_change(value),
            Action::Write => self.write_change(),
            Action::Read => self.read_change(),
        }
    }

    // A change stored.
    pub(crate) fn apply(&mut self, c: Change)
        requires { (c.at < most_depth) × StoresPrecondition c.stores }
        ensures { state_of self.new ≡ changed c (state_of self.old) }
    {
        self.stack[c.at] = c.writer;
        self.counts = c.counts;
        self.places = c.places;
        self.depth = c.depth;
        self.reader = c.reader;
        self.store(c.stores);
    }
}
