// Write: one step of the writer on top of the stack. Here is which rule applies, one method for each phase.
ghost use Rattle.std.specs.Prelude.{◌≡◌, true, ◌≤◌};
ghost use Rattle.rules.specs.Limits.{most_pages};
ghost use Rattle.rules.specs.Refusals.{write_verdict};
ghost use Rattle.rules.specs.Shape.{writer_fits};
ghost use Rattle.rules.specs.Write.{plan_drop, plan_full, plan_want, plan_mark, after_promote, plan_promote, plan_clear, plan_push, plan_filled, plan_phase, write_rule};
ghost use Rattle.ring.specs.Ring.{outcome, state_of};

use crate::state::{Ring, Step};
use crate::words::{flag_in, page_in};
use rules::moves::Move;
use rules::state::{Action, Answer, PageNo, Places, Refusal, WriterPhase};

// What follows PROMOTE. `own` as it stands in the phase.
fn after_promote(t: PageNo, n: PageNo, own: bool) -> WriterPhase
    ensures { result ≡ after_promote t n own }
{
    if own {
        WriterPhase::Clear(t, n)
    } else {
        WriterPhase::Push(t, n)
    }
}

// What these methods ask of a ring is what they need and no more: a ring in shape has it. It can't stand in the type, since a ring that is handed
// in may be out of shape, and Begin, Write, Read, the receipt and the drain answer that.
impl Ring {
    // Whether a Write is made or refused, on a ring in shape.
    pub(crate) fn write_verdict(&self) -> Result<(), Refusal>
        ensures { result ≡ write_verdict true self.now.depth }
    {
        if self.depth == 0 {
            return Err(Refusal::Nobody);
        }
        Ok(())
    }

    // A drop. At depth 1 it also commits what the writers inside left. (`plan_filled` is alike but for what it decides: each is a rule by its name.)
    fn plan_drop(&self) -> Move
        ensures { result ≡ plan_drop self.now.depth }
    {
        if self.depth == 1 {
            Move::DropCommit
        } else {
            Move::Drop
        }
    }

    // WANT, the tail page full; n and flag are those of its word, and the flag is a number as `flag_in` tells it.
    fn plan_full(&self, n: PageNo, flag: u32) -> Move
        ensures { result ≡ plan_full self.now.size self.now.places self.now.depth n flag }
    {
        let Places {
            reader,
            tail: t,
            commit,
            ..
        } = self.places;
        // a
        if t == reader {
            return Move::Become(WriterPhase::Push(t, n), Answer::Looked);
        }
        // b
        if n == commit {
            return self.plan_drop();
        }
        // c
        if (flag == Ring::HEADER) & (commit == reader) {
            return self.plan_drop();
        }
        // d
        if (flag == Ring::HEADER) & (self.size.mode == Ring::STOP) {
            return self.plan_drop();
        }
        // e
        if (flag == Ring::HEADER) | (flag == Ring::UPDATE) {
            return Move::Become(WriterPhase::Mark(t, n), Answer::Looked);
        }
        // f
        Move::Become(WriterPhase::Push(t, n), Answer::Looked)
    }

    // WANT: a slot of the tail page, if it has one left.
    fn plan_want(&self) -> Move
        requires { self.now.places.tail.0 ≤ most_pages }
        ensures { result ≡ plan_want self.now.size self.now.places self.now.depth self.now.words self.now.used }
    {
        let t = self.places.tail;
        let slot = self.used_at(t);
        if slot < self.size.slots {
            return Move::Reserve(t, slot);
        }
        let w = self.word_at(t);
        self.plan_full(page_in(w), flag_in(w))
    }

    // MARK. A mark that is there already is another writer's, and that one clears it.
    fn plan_mark(&self, t: PageNo, n: PageNo) -> Move
        requires { t.0 ≤ most_pages }
        ensures { result ≡ plan_mark t n self.now.words }
    {
        if self.links(t, n, Ring::HEADER) {
            return Move::Mark(t, n);
        }
        if self.links(t, n, Ring::UPDATE) {
            return Move::Become(WriterPhase::Promote(t, n, false), Answer::Shared);
        }
        Move::Become(WriterPhase::Want, Answer::Retry)
    }

    // PROMOTE. By a look at every ring page and not by n's word: the reader may have swapped the page after n.
    fn plan_promote(&self, t: PageNo, n: PageNo, own: bool) -> Move
        requires { self.now.size.pages ≤ most_pages }
        ensures { result ≡ plan_promote self.now.size self.now.places t n own self.now.words }
    {
        let next = after_promote(t, n, own);
        match self.find_header() {
            Some(_) => Move::Become(next, Answer::Standing),
            None => Move::Promote(n, next),
        }
    }

    // CLEAR, which only the writer that made the mark comes to.
    fn plan_clear(&self, t: PageNo, n: PageNo) -> Move
        requires { t.0 ≤ most_pages }
        ensures { result ≡ plan_clear t n self.now.words }
    {
        if self.links(t, n, Ring::UPDATE) {
            Move::Clear(t, n)
        } else {
            Move::Become(WriterPhase::Push(t, n), Answer::Cleared)
        }
    }

    // PUSH. Another writer may have pushed since t was seen.
    fn plan_push(&self, t: PageNo, n: PageNo) -> Move
        ensures { result ≡ plan_push self.now.places t n }
    {
        if self.places.tail == t {
            Move::Push(n)
        } else {
            Move::Become(WriterPhase::Want, Answer::Passed)
        }
    }

    // FILLED. Only the outermost writer commits.
    fn plan_filled(&self) -> Move
        ensures { result ≡ plan_filled self.now.depth }
    {
        if self.depth == 1 {
            Move::Commit
        } else {
            Move::Pend
        }
    }

    // Which rule applies to a record on top that is in this phase. A match, as the phases are these and no others.
    pub(crate) fn plan_phase(&self, phase: WriterPhase) -> Move
        requires { (self.now.size.pages ≤ most_pages) × (self.now.places.tail.0 ≤ most_pages) × (writer_fits phase self.now.size ≡ true) }
        ensures { result ≡ plan_phase phase self.now.size self.now.places self.now.depth self.now.words self.now.used }
    {
        match phase {
            WriterPhase::Want => self.plan_want(),
            WriterPhase::Mark(t, n) => self.plan_mark(t, n),
            WriterPhase::Promote(t, n, own) => self.plan_promote(t, n, own),
            WriterPhase::Clear(t, n) => self.plan_clear(t, n),
            WriterPhase::Push(t, n) => self.plan_push(t, n),
            WriterPhase::Held(p, slot) => Move::Fill(p, slot),
            WriterPhase::Filled => self.plan_filled(),
        }
    }

    // One step of the writer on top. Refused with SHAPE out of shape, and with NOBODY where no writer is at work.
    pub fn write(self) -> Step
        ensures { outcome result ≡ write_rule (state_of self) }
    {
        // At once, with the ring as it came: made where it lies, it would be copied there and back for nothing.
        if self.depth == 0 && self.fits() {
            return Step {
                ring: self,
                answer: Answer::Refused(Refusal::Nobody),
            };
        }
        self.act(Action::Write)
    }
}
