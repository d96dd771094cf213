// Read: one step of the reader. Here is which rule applies.
ghost use Rattle.std.specs.Prelude.{◌≡◌, true, ◌≤◌};
ghost use Rattle.rules.specs.Limits.{most_pages};
ghost use Rattle.rules.specs.Shape.{reader_fits};
ghost use Rattle.rules.specs.Read.{read_limit, plan_idle, plan_ready, plan_reader, read_rule};
ghost use Rattle.ring.specs.Ring.{outcome, state_of};

use crate::state::{Ring, Step};
use rules::moves::Fetch;
use rules::state::{Action, PageNo, ReaderPhase};

impl Ring {
    // How far the reader page may be read. While commit is on it, a slot below used may be reserved and not yet committed.
    pub(crate) fn read_limit(&self) -> u32
        requires { self.now.places.reader.0 ≤ most_pages }
        ensures { result ≡ read_limit self.now.places self.now.used }
    {
        if self.places.commit == self.places.reader {
            self.places.index
        } else {
            self.used_at(self.places.reader)
        }
    }

    // IDLE.
    fn plan_idle(&self) -> Fetch
        requires { (self.now.size.pages ≤ most_pages) × (self.now.places.reader.0 ≤ most_pages) }
        ensures { result ≡ plan_idle self.now.size self.now.places self.now.words self.now.used }
    {
        if self.places.position < self.read_limit() {
            return Fetch::Event;
        }
        if self.places.commit == self.places.reader {
            return Fetch::Empty;
        }
        match self.find_header() {
            Some((p, h)) => Fetch::Find(p, h),
            None => Fetch::Busy,
        }
    }

    // READY. A writer may have taken the page since it was found.
    fn plan_ready(&self, p: PageNo, h: PageNo) -> Fetch
        requires { p.0 ≤ most_pages }
        ensures { result ≡ plan_ready p h self.now.words }
    {
        if self.links(p, h, Ring::HEADER) {
            Fetch::Swap(p, h)
        } else {
            Fetch::Miss
        }
    }

    // Which rule applies to the reader, by its phase: a match, as the phases are these and no others.
    pub(crate) fn plan_reader(&self) -> Fetch
        requires { (self.now.size.pages ≤ most_pages) × (self.now.places.reader.0 ≤ most_pages) × (reader_fits self.now.reader self.now.size ≡ true) }
        ensures { result ≡ plan_reader self.now.reader self.now.size self.now.places self.now.words self.now.used }
    {
        match self.reader {
            ReaderPhase::Idle => self.plan_idle(),
            ReaderPhase::Found(p, h) => Fetch::Prepare(p, h),
            ReaderPhase::Ready(p, h) => self.plan_ready(p, h),
        }
    }

    // One step of the reader. Refused with SHAPE out of shape.
    pub fn read(self) -> Step
        ensures { outcome result ≡ read_rule (state_of self) }
    {
        self.act(Action::Read)
    }
}
