// Drain in one call: the part of the buffer that was filled is handed back, in a struct that keeps hold of it.
ghost use Rattle.std.specs.Prelude.{◌≡◌, ◌≤◌, length, take};
ghost use Rattle.rules.specs.Drain.{drain_rule};
ghost use Rattle.ring.specs.DrainPart.{HandedBack};
ghost use Rattle.ring.specs.Ring.{state_of};

use crate::state::Ring;
use rules::state::Answer;

// What a drain gives back: the part of the lent buffer that it filled, the ring, and the last answer.
#[derive(Drop)]
pub struct DrainPart<'a> {
    pub part: &'a mut [u64],
    pub ring: Ring,
    pub last: Option<Answer>,
}

// The first `count` elements of a buffer. A function of its own, for its promise: they lie where the buffer does.
fn prefix<'a>(buffer: &'a mut [u64], count: usize) -> &'a mut [u64]
    requires { count ≤ length buffer.old }
    ensures { (result.now ≡ take count buffer.old) × (result.ref_ptr ≡ buffer.entry.ref_ptr) }
{
    &mut buffer[..count]
}

impl Ring {
    // What `drain_into` does, with the filled part handed back: the prefix of the buffer, which holds the Events and nothing else. The result holds
    // the buffer's lifetime, so no clause here can speak of the elements beyond the part. That they keep their contents is promised by
    // `drain_into`, and that nothing else here stores to the buffer is read off the code (`drains-once`, specs/Touches).
    pub fn drain<'a>(self, buffer: &'a mut [u64]) -> DrainPart<'a>
        ensures { HandedBack (drain_rule (state_of self) (length buffer.old)) buffer.entry result }
    {
        let f = self.drain_into(buffer);
        // field by field: the part stands for the count
        let part = prefix(buffer, f.count);
        DrainPart {
            part,
            ring: f.ring,
            last: f.last,
        }
    }
}
