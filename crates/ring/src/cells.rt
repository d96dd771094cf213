// What stands where: the cells of a page, the place of a slot in the arrays of slots, the record on top of the stack, and a record in phase WANT.
ghost use Rattle.std.specs.Prelude.{◌≡◌, ◌≤◌};
ghost use Rattle.rules.specs.Limits.{most_pages, most_depth};
ghost use Rattle.rules.specs.State.{word_at, used_at, slot_index, top, writer};
ghost use Rattle.rules.specs.declared.state.WriterPhase.TheVariants.{Want};
ghost use Rattle.ring.specs.Change.{top_at};
ghost use Rattle.ring.specs.Ring.{state_of};

use crate::state::Ring;
use rules::state::{PageNo, Writer, WriterPhase};

// A page's number may be any number: a ring out of shape has such, and so the type can't say that it is below 17.
impl Ring {
    // The word of a page. This and `used_at` are two of the rules' names, and each tells which array it reads.
    pub(crate) fn word_at(&self, p: PageNo) -> u32
        requires { p.0 ≤ most_pages }
        ensures { result ≡ word_at self.now.words p }
    {
        self.words[p.0 as usize]
    }

    // How many slots of a page are reserved.
    pub(crate) fn used_at(&self, p: PageNo) -> u32
        requires { p.0 ≤ most_pages }
        ensures { result ≡ used_at self.now.used p }
    {
        self.used[p.0 as usize]
    }

    // Where a slot stands. The product and the sum of 32-bit numbers fit 64 bits.
    pub(crate) fn slot_index(&self, p: PageNo, slot: u32) -> usize
        ensures { result ≡ slot_index self.now.size p slot }
    {
        (p.0 as usize) * (self.size.slots as usize) + (slot as usize)
    }

    // The place of the record on top of the stack; the first place of an empty stack. A place and no Option, since
    // a change always stores a record: that of an empty stack stores the first as it was.
    pub(crate) fn top_at(&self) -> usize
        ensures { result ≡ top_at self.now.depth }
    {
        self.depth.saturating_sub(1) as usize
    }

    // The record on top of the stack.
    pub(crate) fn top(&self) -> Writer
        requires { self.now.depth ≤ most_depth }
        ensures { result ≡ top (state_of self.now) }
    {
        self.stack[self.top_at()]
    }
}

// A record in phase WANT: a new writer's, or, with value 0, that of a place which no writer has. A function and
// no Default, for the value.
pub(crate) fn wanting(value: u32) -> Writer
    ensures { result ≡ writer value Want }
{
    Writer {
        value,
        phase: WriterPhase::Want,
    }
}
