// A turn of a drain, decided on a ring in shape: Events that stand one after the other on the reader page are made together, and a Read of another
// kind by itself.
ghost use Rattle.std.specs.Prelude.{◌≡◌, ◌<◌, ◌≤◌};
ghost use Rattle.rules.specs.Limits.{most_slots};
ghost use Rattle.ring.specs.Pieces.{StoresPrecondition};
ghost use Rattle.ring.specs.Turn.{event_count, places_before, left_after, turn_of, turned, CountPrecondition, TurnPrecondition};
ghost use Rattle.ring.specs.Ring.{state_of};

use crate::pieces::{Stores, read_places};
use crate::state::Ring;
use rules::moves::Fetch;
use rules::state::{Answer, Places, ReaderPhase};

// What the Reads of one turn of a drain leave: those of some Events that stand one after the other, or one Read of another kind.
// The pieces stand apart as in `Change`: all are decided on the ring as it was.
#[derive(Clone, Copy, PartialEq, Eq, Debug)]
pub struct Turn {
    // how many Events, and the place of the first one's slot
    pub count: usize,
    pub from: usize,
    // the answer of the last Read
    pub last: Option<Answer>,
    // how many Reads may still be made before the next Event
    pub left: u32,
    pub handed: u64,
    pub places: Places,
    pub reader: ReaderPhase,
    pub stores: Stores,
}

// The places before the last of some Reads, of which all but the last are Events. This and the next are no methods: their types are those of crate rules.
fn places_before(places: Places, count: usize) -> Places
    requires { (places.position ≤ most_slots) × (count ≤ most_slots) }
    ensures { result ≡ places_before places count }
{
    let mut next = places;
    next.position += count.saturating_sub(1) as u32;
    next
}

// How many Reads may still be made: all of them again after an Event, and none after an end.
fn left_after(f: Fetch, left: u32) -> u32
    requires { 0 < left }
    ensures { result ≡ left_after f left }
{
    match f {
        Fetch::Event => Ring::MOST_IN_ROW,
        Fetch::Empty | Fetch::Busy => 0,
        _ => left - 1,
    }
}

impl Ring {
    // How many Events come one after the other: the least of those on the reader page, those that there is space for, and those that the counts
    // allow. The one that makes handed + overwritten more than committed is allowed, and is the last: it leaves the ring out of shape.
    fn event_count(&self, f: Fetch, space: usize) -> usize
        requires { CountPrecondition f self.now.places self.now.counts self.now.used }
        ensures { result ≡ event_count f self.now.places self.now.counts self.now.used space }
    {
        match f {
            Fetch::Event => {
                let here = self.read_limit() - self.places.position;
                let counts = self.counts;
                let allowed = counts.committed + 1 - (counts.handed + counts.overwritten);
                (here as usize).min(space).min(allowed as usize)
            }
            _ => 0,
        }
    }

    // Which rule applies, how many Events come of it, and what these Reads leave in each piece.
    pub(crate) fn turn_by(&self, left: u32, space: usize) -> Turn
        requires { TurnPrecondition left space self.now.size self.now.places self.now.counts self.now.reader self.now.words self.now.used }
        ensures { result ≡ turn_of (state_of self.now) left space }
    {
        let f = self.plan_reader();
        let count = self.event_count(f, space);
        let before = places_before(self.places, count);
        Turn {
            count,
            from: self.slot_index(self.places.reader, self.places.position),
            last: Some(self.read_answer(f, before)),
            left: left_after(f, left),
            handed: self.counts.handed + (count as u64),
            places: read_places(f, before),
            reader: self.read_phase(f),
            stores: self.read_stores(f),
        }
    }

    // A turn stored.
    pub(crate) fn apply_turn(&mut self, t: Turn)
        requires { StoresPrecondition t.stores }
        ensures { state_of self.new ≡ turned t (state_of self.old) }
    {
        self.counts.handed = t.handed;
        self.places = t.places;
        self.reader = t.reader;
        self.store(t.stores);
    }
}
