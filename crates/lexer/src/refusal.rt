// A refusal: a reason and a place.
ghost use Rattle.std.specs.Prelude.{◌≡◌};

use crate::reasons::Reason;

// A report has a place in any case, so a refusal that is of no part of the sheet has place 0.
#[derive(Clone, Copy, PartialEq, Eq, Debug)]
pub struct Refusal {
    pub reason: Reason,
    pub place: usize,
}

impl Reason {
    // The refusal for this reason, at a place.
    pub fn at(self, place: usize) -> Refusal
        ensures { result ≡ record { reason = self; place = place } }
    {
        Refusal {
            reason: self,
            place,
        }
    }
}
