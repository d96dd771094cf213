// What an action leaves in each piece of the ring, once it is decided which rule applies: a Write, and then a Read.
ghost use Rattle.std.specs.Prelude.{◌≡◌, ◌≤◌};
ghost use Rattle.rules.specs.Limits.{most_pages, most_slots, most_count};
ghost use Rattle.ring.specs.Pieces.{answer_after, record_after, counts_after, places_after, depth_after, stores_after, MovePrecondition, read_answer, read_handed, read_places, read_phase, read_stores, FetchPrecondition, EventPrecondition, stored, StoresPrecondition};
ghost use Rattle.ring.specs.Ring.{state_of};

use crate::cells::wanting;
use crate::state::Ring;
use crate::words::{page_in, word_of};
use rules::moves::{Fetch, Move};
use rules::state::{Answer, Counts, PageNo, Places, ReaderPhase, ReadingNo, Writer, WriterPhase};

// The cells of the arrays that an action stores to. A slot is named by its place in the arrays of slots.
#[derive(Clone, Copy, PartialEq, Eq, Debug)]
pub enum Stores {
    Same,
    // a slot and the number that it gets; its page and the page's used
    Number(usize, ReadingNo, PageNo, u32),
    // a page and its word; another page, whose used becomes 0
    Take(PageNo, u32, PageNo),
    // a page and its word
    Word(PageNo, u32),
    // a slot and the value that it gets
    Value(usize, u32),
}

// The top record: its value with the next phase. A popped one is reset. Functions of a move or a fetch are no methods of it, since its type is one of
// crate rules; those that read the ring are methods of the ring.
pub(crate) fn record_after(m: Move, value: u32) -> Writer
    ensures { result ≡ record_after m value }
{
    let phase = match m {
        Move::Become(next, _) | Move::Promote(_, next) => next,
        Move::Reserve(t, slot) => WriterPhase::Held(t, slot),
        Move::Mark(t, n) => WriterPhase::Promote(t, n, true),
        Move::Clear(t, n) => WriterPhase::Push(t, n),
        Move::Push(_) => WriterPhase::Want,
        Move::Fill(_, _) => WriterPhase::Filled,
        Move::Drop | Move::DropCommit | Move::Pend | Move::Commit => {
            return wanting(0);
        }
    };
    Writer { value, phase }
}

impl Ring {
    // The answer. A Reserved tells the count before the step.
    pub(crate) fn answer_after(&self, m: Move) -> Answer
        requires { self.now.counts.taken ≤ most_count }
        ensures { result ≡ answer_after m self.now.counts.taken }
    {
        let taken = self.counts.taken;
        match m {
            Move::Become(_, answer) => answer,
            Move::Reserve(_, _) => Answer::Reserved(ReadingNo(taken as u32)),
            Move::Drop | Move::DropCommit => Answer::Dropped,
            Move::Mark(_, _) => Answer::Marked,
            Move::Promote(_, _) => Answer::Promoted,
            Move::Clear(_, _) => Answer::Cleared,
            Move::Push(_) => Answer::Pushed,
            Move::Fill(_, _) => Answer::Filled,
            Move::Pend => Answer::Pending,
            Move::Commit => Answer::Committed(taken),
        }
    }

    // The loss is counted at the mark: by the push another writer may have pushed. A sum past its limit is kept, and 64 bits hold it.
    pub(crate) fn counts_after(&self, m: Move) -> Counts
        requires { MovePrecondition m × (self.now.counts.taken ≤ most_count) × (self.now.counts.overwritten ≤ most_count) × (self.now.counts.dropped ≤ most_count) }
        ensures { result ≡ counts_after m self.now.counts self.now.used }
    {
        let mut next = self.counts;
        match m {
            Move::Reserve(_, _) => next.taken += 1,
            Move::Drop => next.dropped += 1,
            Move::DropCommit => {
                next.dropped += 1;
                next.committed = next.taken;
            }
            Move::Mark(_, n) => next.overwritten += u64::from(self.used_at(n)),
            Move::Commit => next.committed = next.taken,
            _ => (),
        }
        next
    }

    // A push moves the tail; a commit, and a drop that commits, the commit page and index.
    pub(crate) fn places_after(&self, m: Move) -> Places
        requires { self.now.places.tail.0 ≤ most_pages }
        ensures { result ≡ places_after m self.now.places self.now.used }
    {
        let mut next = self.places;
        match m {
            Move::Push(n) => next.tail = n,
            Move::DropCommit | Move::Commit => {
                next.commit = next.tail;
                next.index = self.used_at(next.tail);
            }
            _ => (),
        }
        next
    }

    // One less where the record is popped.
    pub(crate) fn depth_after(&self, m: Move) -> u32
        requires { 1 ≤ self.now.depth }
        ensures { result ≡ depth_after m self.now.depth }
    {
        match m {
            Move::Drop | Move::DropCommit | Move::Pend | Move::Commit => self.depth - 1,
            _ => self.depth,
        }
    }

    // The cells that the rule stores to; `value` is that of the top record.
    pub(crate) fn stores_after(&self, m: Move, value: u32) -> Stores
        requires { MovePrecondition m × (self.now.counts.taken ≤ most_count) }
        ensures { result ≡ stores_after m self.now.size self.now.counts.taken value self.now.words }
    {
        match m {
            Move::Reserve(t, slot) => {
                let number = ReadingNo(self.counts.taken as u32);
                Stores::Number(self.slot_index(t, slot), number, t, slot + 1)
            }
            Move::Mark(t, n) => Stores::Take(t, word_of(n, Ring::UPDATE) as u32, n),
            Move::Promote(n, _) => {
                let next = page_in(self.word_at(n));
                Stores::Word(n, word_of(next, Ring::HEADER) as u32)
            }
            Move::Clear(t, n) => Stores::Word(t, word_of(n, Ring::NORMAL) as u32),
            Move::Fill(p, slot) => Stores::Value(self.slot_index(p, slot), value),
            _ => Stores::Same,
        }
    }

    // The cells stored.
    pub(crate) fn store(&mut self, s: Stores)
        requires { StoresPrecondition s }
        ensures { state_of self.new ≡ stored s (state_of self.old) }
    {
        match s {
            Stores::Same => (),
            Stores::Number(at, number, t, used) => {
                self.numbers[at] = number.0;
                self.used[t.0 as usize] = used;
            }
            Stores::Take(t, word, n) => {
                self.words[t.0 as usize] = word;
                self.used[n.0 as usize] = 0;
            }
            Stores::Word(p, word) => self.words[p.0 as usize] = word,
            Stores::Value(at, value) => self.values[at] = value,
        }
    }
}

// ---- Read; `read_handed` and `read_places` are functions as `record_after` is

impl Ring {
    // The answer, at a read position of the reader page. An Event tells the slot there.
    pub(crate) fn read_answer(&self, f: Fetch, places: Places) -> Answer
        requires { EventPrecondition f self.now.size places }
        ensures { result ≡ read_answer f self.now.size places self.now.numbers self.now.values }
    {
        match f {
            Fetch::Event => {
                let at = self.slot_index(places.reader, places.position);
                Answer::Event(ReadingNo(self.numbers[at]), self.values[at])
            }
            Fetch::Empty => Answer::Empty,
            Fetch::Busy => Answer::Busy,
            Fetch::Find(_, _) => Answer::Found,
            Fetch::Prepare(_, _) => Answer::Prepared,
            Fetch::Swap(_, _) => Answer::Swapped,
            Fetch::Miss => Answer::Missed,
        }
    }

    // The reader's next phase.
    pub(crate) fn read_phase(&self, f: Fetch) -> ReaderPhase
        ensures { result ≡ read_phase f self.now.reader }
    {
        match f {
            Fetch::Find(p, h) => ReaderPhase::Found(p, h),
            Fetch::Prepare(p, h) => ReaderPhase::Ready(p, h),
            Fetch::Swap(_, _) | Fetch::Miss => ReaderPhase::Idle,
            _ => self.reader,
        }
    }

    // The cells that the rule stores to. A swap empties the reader page: it goes back into the ring.
    pub(crate) fn read_stores(&self, f: Fetch) -> Stores
        requires { FetchPrecondition f × (self.now.places.reader.0 ≤ most_pages) }
        ensures { result ≡ read_stores f self.now.places.reader self.now.words }
    {
        let page = self.places.reader;
        match f {
            Fetch::Prepare(_, h) => {
                let next = page_in(self.word_at(h));
                Stores::Word(page, word_of(next, Ring::HEADER) as u32)
            }
            Fetch::Swap(p, _) => Stores::Take(p, word_of(page, Ring::NORMAL) as u32, page),
            _ => Stores::Same,
        }
    }
}

// A sum past its limit is kept, and 64 bits hold it.
pub(crate) fn read_handed(f: Fetch, handed: u64) -> u64
    requires { handed ≤ most_count }
    ensures { result ≡ read_handed f handed }
{
    match f {
        Fetch::Event => handed + 1,
        _ => handed,
    }
}

// An Event moves the read position; a swap makes h the reader page, to be read from its start.
pub(crate) fn read_places(f: Fetch, places: Places) -> Places
    requires { places.position ≤ most_slots }
    ensures { result ≡ read_places f places }
{
    let mut next = places;
    match f {
        Fetch::Event => next.position += 1,
        Fetch::Swap(_, h) => {
            next.reader = h;
            next.position = 0;
        }
        _ => (),
    }
    next
}
