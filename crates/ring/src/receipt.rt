// The receipt: what became of the readings begun.
ghost use Rattle.std.specs.Prelude.{◌≡◌, true};
ghost use Rattle.rules.specs.Shape.{counts_fit};
ghost use Rattle.rules.specs.Receipt.{receipt_of, refused_receipt, receipt_rule};
ghost use Rattle.ring.specs.Ring.{state_of};

use crate::state::Ring;
use rules::state::{Counts, Receipt, Refusal};

// The receipt of counts that agree, so that no difference is below 0. A function and no From, which could not ask that they agree.
fn receipt_of(c: Counts) -> Receipt
    requires { counts_fit c ≡ true }
    ensures { result ≡ receipt_of c }
{
    Receipt {
        refusal: 0,
        begun: c.begun,
        taken: c.taken,
        handed: c.handed,
        overwritten: c.overwritten,
        dropped: c.dropped,
        waiting: c.committed - c.handed - c.overwritten,
        open: c.taken - c.committed,
        complete: c.begun == c.handed,
    }
}

// The receipt of a ring out of shape.
fn refused_receipt() -> Receipt
    ensures { result ≡ refused_receipt }
{
    Receipt {
        refusal: Refusal::Shape.number(),
        ..Receipt::default()
    }
}

impl Ring {
    // The receipt. Refused with SHAPE out of shape: all zero, and not complete.
    pub fn receipt(self) -> Receipt
        ensures { result ≡ receipt_rule (state_of self) }
    {
        if self.fits() {
            receipt_of(self.counts)
        } else {
            refused_receipt()
        }
    }
}
