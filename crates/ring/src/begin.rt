// Begin: a new writer on top of the stack.
ghost use Rattle.std.specs.Prelude.{◌≡◌, true};
ghost use Rattle.rules.specs.Refusals.{begin_verdict};
ghost use Rattle.rules.specs.Begin.{begin_rule};
ghost use Rattle.ring.specs.Ring.{outcome, state_of};

use crate::state::{Ring, Step};
use rules::state::{Action, Refusal};

impl Ring {
    // Whether a Begin is made or refused, on a ring in shape.
    pub(crate) fn begin_verdict(&self) -> Result<(), Refusal>
        ensures { result ≡ begin_verdict true self.now.depth self.now.counts.begun }
    {
        if self.depth == Ring::MOST_DEPTH {
            return Err(Refusal::Depth);
        }
        if self.counts.begun == Ring::MOST_COUNT {
            return Err(Refusal::Worn);
        }
        Ok(())
    }

    // A new writer with this value. Refused with SHAPE out of shape, with DEPTH at depth 4, and with WORN where begun is at its limit.
    pub fn begin(self, value: u32) -> Step
        ensures { outcome result ≡ begin_rule (state_of self) value }
    {
        self.act(Action::Begin(value))
    }
}
