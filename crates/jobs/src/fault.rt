// Why an opening is refused. The fault of a layer below stands whole in it.
ghost use Rattle.std.specs.Prelude.{◌≡◌, Some};
ghost use Rattle.refusals.specs.Lines.{line};
ghost use Rattle.jobs.specs.declared.fault.OpenFault.TheVariants as fault;
ghost use Rattle.jobs.specs.Faults.{open_refusal};

use algebras::{AlgebraFault, ReviewFault};
use certificates::CertificateFault;
use refusals::{Layer, Refusal};
use std::fmt;
use terms::Malformed;
use texts::TextFault;

#[derive(Clone, Copy, PartialEq, Eq, Debug)]
pub enum OpenFault {
    // Of the rule text or the start term.
    Text(TextFault),
    Certificate(CertificateFault),
    // The codes are no term under the system's signature.
    Malformed(Malformed),
    Review(ReviewFault),
    // The height is out of reach.
    Algebra(AlgebraFault),
    // The grant is below the height.
    BelowHeight,
}

impl From<TextFault> for OpenFault {
    ghost from_gives = { λ f r. r ≡ fault.Text f };

    fn from(fault: TextFault) -> Self {
        Self::Text(fault)
    }
}

impl From<CertificateFault> for OpenFault {
    ghost from_gives = { λ f r. r ≡ fault.Certificate f };

    fn from(fault: CertificateFault) -> Self {
        Self::Certificate(fault)
    }
}

impl From<Malformed> for OpenFault {
    ghost from_gives = { λ f r. r ≡ fault.Malformed f };

    fn from(fault: Malformed) -> Self {
        Self::Malformed(fault)
    }
}

impl From<ReviewFault> for OpenFault {
    ghost from_gives = { λ f r. r ≡ fault.Review f };

    fn from(fault: ReviewFault) -> Self {
        Self::Review(fault)
    }
}

impl From<AlgebraFault> for OpenFault {
    ghost from_gives = { λ f r. r ≡ fault.Algebra f };

    fn from(fault: AlgebraFault) -> Self {
        Self::Algebra(fault)
    }
}

impl From<OpenFault> for Refusal {
    ghost from_gives = { λ f r. r ≡ open_refusal f };

    fn from(fault: OpenFault) -> Refusal {
        match fault {
            OpenFault::Text(fault) => Refusal::from(fault),
            OpenFault::Certificate(fault) => Refusal::from(fault),
            OpenFault::Malformed(fault) => Refusal::from(fault),
            OpenFault::Review(fault) => Refusal::from(fault),
            OpenFault::Algebra(fault) => Refusal::from(fault),
            OpenFault::BelowHeight => {
                Refusal {
                    number: 43,
                    layer: Layer::Job,
                    place: 0,
                }
            }
        }
    }
}

// The line of its refusal.
impl fmt::Display for OpenFault {
    ghost output = { λ f. Some (line (open_refusal f)) };

    fn fmt<W: fmt::Write>(&self, f: &mut fmt::Formatter<W>) -> fmt::Result {
        Refusal::from(*self).fmt(f)
    }
}
