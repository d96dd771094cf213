// One action of any kind: in place, and on a ring that is passed and given back.
ghost use Rattle.std.specs.Prelude.{◌≡◌, true};
ghost use Rattle.rules.specs.Act.{act};
ghost use Rattle.rules.specs.Answers.{gives};
ghost use Rattle.rules.specs.Shape.{in_shape};
ghost use Rattle.ring.specs.Ring.{outcome, state_of};

use crate::state::{Ring, Step};
use rules::state::{Action, Answer, Refusal};

impl Ring {
    // One action on a ring in shape, where it lies.
    pub(crate) fn make(&mut self, action: Action) -> Answer
        requires { in_shape (state_of self.old) ≡ true }
        ensures { gives result (state_of self.new) ≡ act (state_of self.old) action }
    {
        let change = self.change_by(action);
        self.apply(change);
        change.answer
    }

    pub fn act(mut self, action: Action) -> Step
        ensures { outcome result ≡ act (state_of self) action }
    {
        let answer = if self.fits() {
            self.make(action)
        } else {
            Answer::Refused(Refusal::Shape)
        };
        Step { ring: self, answer }
    }
}
