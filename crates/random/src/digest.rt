// Digests. The slots' four chains run side by side in one loop, since each fold waits for the one before it.
ghost use Rattle.std.specs.Prelude.{◌≡◌, ◌+◌, ◌*◌, ◌%◌};

use ring::{Answer, Receipt, Ring, Step};
use rules::state::{Counts, Places, ReaderPhase, Writer, WriterPhase};
use text::Tally;

const FACTOR: u32 = 1664525;

const TERM: u32 = 1013904223;

// What a number of 64 bits is taken by before a cast to 32, which may lose nothing.
const TWO_32: u64 = 4294967296;

// How many slots a chain has: half of the room.
const CHAIN: usize = 136;

// A reader's phase as its code and its two pages. The codes are the digest's own, each beside the numbers that follow it.
fn reader_numbers(phase: ReaderPhase) -> [u32; 3] {
    match phase {
        ReaderPhase::Idle => [0, 0, 0],
        ReaderPhase::Found(p, h) => [1, p.0, h.0],
        ReaderPhase::Ready(p, h) => [2, p.0, h.0],
    }
}

// A writer's phase as its code, its pages or its page and slot, and a third number; its codes are the digest's own too.
fn writer_numbers(phase: WriterPhase) -> [u32; 4] {
    match phase {
        WriterPhase::Want => [0, 0, 0, 0],
        WriterPhase::Mark(t, n) => [1, t.0, n.0, 0],
        WriterPhase::Promote(t, n, own) => [2, t.0, n.0, u32::from(own)],
        WriterPhase::Clear(t, n) => [3, t.0, n.0, 0],
        WriterPhase::Push(t, n) => [4, t.0, n.0, 0],
        WriterPhase::Held(p, slot) => [5, p.0, slot, 0],
        WriterPhase::Filled => [6, 0, 0, 0],
    }
}

#[derive(Clone, Copy)]
pub(crate) struct Digest(u32);

impl Digest {
    pub(crate) const EMPTY: Digest = Digest(0);

    pub(crate) fn number(self) -> u32 {
        self.0
    }

    fn fold(self, x: u32) -> Digest
        ensures { result.0 ≡ (1664525 * self.0 + x + 1013904223) % 4294967296 }
    {
        Digest(
            FACTOR
                .wrapping_mul(self.0)
                .wrapping_add(x)
                .wrapping_add(TERM),
        )
    }

    fn numbers<const N: usize>(self, numbers: [u32; N]) -> Digest {
        numbers.iter().fold(self, |h, x| h.fold(*x))
    }

    fn count(self, count: u64) -> Digest {
        let low = (count % TWO_32) as u32;
        let high = (count >> 32) as u32;
        self.fold(low).fold(high)
    }

    // As `numbers`, of counts: each is folded as two numbers, so that one function for both would be handed how.
    fn all<const N: usize>(self, counts: [u64; N]) -> Digest {
        counts.iter().fold(self, |h, count| h.count(*count))
    }

    pub(crate) fn answer(self, answer: Answer) -> Digest {
        let numbers = ring::answer_numbers(answer);
        // the values are below 2^32: a count that is told stood in shape
        let first = (numbers.first % TWO_32) as u32;
        let second = (numbers.second % TWO_32) as u32;
        self.numbers([numbers.code, first, second])
    }

    // The last answer of a drain.
    pub(crate) fn last(self, last: Option<Answer>) -> Digest {
        match last {
            None => self.fold(0),
            Some(answer) => self.fold(1).answer(answer),
        }
    }

    // How many elements a drain filled, and all of the buffer, of which a part was lent: what it left alone is folded too.
    pub(crate) fn buffer(self, count: usize, buffer: &[u64; 40]) -> Digest {
        // the count is at most 40: no more are lent
        let h = self.fold(((count as u64) % TWO_32) as u32);
        h.all(*buffer)
    }

    pub(crate) fn receipt(self, r: Receipt) -> Digest {
        self.fold(r.refusal)
            .all([
                r.begun,
                r.taken,
                r.handed,
                r.overwritten,
                r.dropped,
                r.waiting,
                r.open,
            ])
            .fold(u32::from(r.complete))
    }

    fn places(self, p: Places) -> Digest {
        self.numbers([p.reader.0, p.tail.0, p.commit.0, p.index, p.position])
    }

    fn counts(self, c: Counts) -> Digest {
        self.all([
            c.begun,
            c.taken,
            c.committed,
            c.handed,
            c.overwritten,
            c.dropped,
        ])
    }

    fn writer(self, w: Writer) -> Digest {
        self.fold(w.value).numbers(writer_numbers(w.phase))
    }

    // What is no array of pages or slots: the set-up, where the ring stands, its counts, and the reader's and the writers' phases.
    fn control(self, ring: &Ring) -> Digest {
        let size = ring.size;
        let h = self
            .numbers([size.pages, size.slots, size.mode])
            .places(ring.places)
            .counts(ring.counts)
            .fold(ring.depth)
            .numbers(reader_numbers(ring.reader));
        ring.stack.iter().fold(h, |h, w| h.writer(*w))
    }

    // Each page's word and used.
    fn words(self, words: &[u32; 17], used: &[u32; 17]) -> Digest {
        words
            .iter()
            .zip(used.iter())
            .fold(self, |h, (word, used)| h.fold(*word).fold(*used))
    }

    // The digests of the slots' numbers and values, each in two halves. By index: a zip of four halves would nest its pairs.
    fn slots(self, numbers: &[u32; 272], values: &[u32; 272]) -> Digest {
        let mut a = Digest::EMPTY;
        let mut b = Digest::EMPTY;
        let mut c = Digest::EMPTY;
        let mut d = Digest::EMPTY;
        for i in 0..CHAIN {
            a = a.fold(numbers[i]);
            b = b.fold(numbers[i + CHAIN]);
            c = c.fold(values[i]);
            d = d.fold(values[i + CHAIN]);
        }
        self.numbers([a.0, b.0, c.0, d.0])
    }

    pub(crate) fn ring(self, ring: &Ring) -> Digest {
        let control = Digest::EMPTY.control(ring).words(&ring.words, &ring.used);
        self.fold(control.0).slots(&ring.numbers, &ring.values)
    }

    // The answer and the ring that an action or a set-up gave, and the answer counted.
    pub(crate) fn made(self, made: &Step, tally: &mut Tally) -> Digest {
        text::count_answer(tally, made.answer);
        self.answer(made.answer).ring(&made.ring)
    }
}
