// Why an algebra has no answer.
ghost use Rattle.std.specs.Prelude.{◌≡◌, Some};
ghost use Rattle.refusals.specs.Lines.{line};
ghost use Rattle.algebras.specs.Replies.{algebra_refusal};

use refusals::{Layer, Refusal};
use std::fmt;

#[derive(Clone, Copy, PartialEq, Eq, Debug)]
pub enum AlgebraFault {
    HeightOutOfReach,
    RuleOutOfReach,
    CeilingOutOfReach,
    // The signature does not fit, or the codes are no term or no rule under it.
    Unfit,
    SizeOutOfRange,
}

impl From<AlgebraFault> for Refusal {
    ghost from_gives = { λ f r. r ≡ algebra_refusal f };

    fn from(fault: AlgebraFault) -> Refusal {
        let number = match fault {
            AlgebraFault::HeightOutOfReach => 31,
            AlgebraFault::RuleOutOfReach => 32,
            AlgebraFault::CeilingOutOfReach => 35,
            AlgebraFault::Unfit => 36,
            AlgebraFault::SizeOutOfRange => 24,
        };
        Refusal {
            number,
            layer: Layer::Review,
            place: 0,
        }
    }
}

// The line of its refusal.
impl fmt::Display for AlgebraFault {
    ghost output = { λ f. Some (line (algebra_refusal f)) };

    fn fmt<W: fmt::Write>(&self, f: &mut fmt::Formatter<W>) -> fmt::Result {
        Refusal::from(*self).fmt(f)
    }
}
