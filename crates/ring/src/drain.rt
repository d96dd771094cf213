// Drain: Reads made one after the other, and their Events laid in a buffer that is lent. The ring stays in one place, and its shape is tested
// once: a Read can leave it only by making handed + overwritten more than committed, and that is tested at each turn.
ghost use Rattle.std.specs.Prelude.{◌≡◌, true, ◌+◌, ◌≤◌, leb, length, None};
ghost use Rattle.std.proofs.lemmas.List.Edits.{sets};
ghost use Rattle.rules.specs.Limits.{slot_room, most_count, most_in_row};
ghost use Rattle.rules.specs.State.{reading};
ghost use Rattle.rules.specs.Shape.{in_shape};
ghost use Rattle.rules.specs.Drain.{event_number, drain_reads, drain_rule, buffer_after};
ghost use Rattle.ring.specs.Turn.{events_from, last_after};
ghost use Rattle.ring.specs.Ring.{state_of};
ghost use Rattle.ring.specs.Drain.{CountMatches};

use crate::state::{DrainCount, Ring};
use rules::state::{Answer, Counts, Refusal};

// An Event as it is stored.
fn event_number(number: u32, value: u32) -> u64
    ensures { result ≡ event_number (reading number) value }
{
    (u64::from(number) << 32) + u64::from(value)
}

// Whether handed + overwritten is at most committed: the one clause of the shape that an Event can break.
fn agrees(counts: Counts) -> bool
    requires { (counts.handed ≤ most_count + 1) × (counts.overwritten ≤ most_count) }
    ensures { result ≡ leb (counts.handed + counts.overwritten) counts.committed }
{
    counts.handed + counts.overwritten <= counts.committed
}

// The last answer. Where a Read is still due, the ring is out of shape, and that Read is refused. `due` is what the loop's test had left, and is kept
// nowhere.
fn last_after(due: bool, last: Option<Answer>) -> Option<Answer>
    ensures { result ≡ last_after due last }
{
    if due {
        Some(Answer::Refused(Refusal::Shape))
    } else {
        last
    }
}

impl Ring {
    // The readings of some slots, from slot `from` on, laid in the buffer from `at` on. By places, as `events_from` and `sets`
    // have them: parts of three arrays side by side would be as many places again.
    fn lay_events(&self, buffer: &mut [u64], at: usize, from: usize, count: usize)
        requires { (at + count ≤ length buffer.old) × (from + count ≤ slot_room) }
        ensures { buffer.new ≡ sets buffer.old at (events_from self.now.numbers self.now.values from count) }
    {
        for i in 0..count {
            let slot = from + i;
            buffer[at + i] = event_number(self.numbers[slot], self.values[slot]);
        }
    }

    // The Reads of a ring in shape.
    fn drain_shaped(mut self, buffer: &mut [u64]) -> DrainCount
        requires { in_shape (state_of self) ≡ true }
        ensures { CountMatches (drain_reads most_in_row (length buffer.old) (state_of self) None) result × (buffer.new ≡ buffer_after (drain_reads most_in_row (length buffer.old) (state_of self) None) buffer.old) }
    {
        let most = buffer.len();
        // how many Events are laid: a turn may lay several, and how many is known once it is decided
        let mut at: usize = 0;
        let mut left: u32 = Ring::MOST_IN_ROW;
        let mut last = None;
        while (at < most) & (0 < left) & agrees(self.counts) {
            let t = self.turn_by(left, most - at);
            self.lay_events(buffer, at, t.from, t.count);
            self.apply_turn(t);
            at += t.count;
            left = t.left;
            last = t.last;
        }
        DrainCount {
            ring: self,
            last: last_after((at < most) & (0 < left), last),
            count: at,
        }
    }

    // Reads, until the buffer is full, an answer is Empty, Busy or a refusal, or MOST_IN_ROW of them in a row have brought none of these and no
    // Event. The Events are the first `count` elements of the buffer, each as number * 2^32 + value; the rest keeps its contents. A ring out of
    // shape is refused with SHAPE, whatever the buffer's length.
    pub fn drain_into(self, buffer: &mut [u64]) -> DrainCount
        ensures { CountMatches (drain_rule (state_of self) (length buffer.old)) result × (buffer.new ≡ buffer_after (drain_rule (state_of self) (length buffer.old)) buffer.old) }
    {
        if !self.fits() {
            return DrainCount {
                ring: self,
                last: Some(Answer::Refused(Refusal::Shape)),
                count: 0,
            };
        }
        self.drain_shaped(buffer)
    }
}
