// Why a call on terms has no result.
ghost use Rattle.std.specs.Prelude.{◌≡◌, Some};
ghost use Rattle.refusals.specs.Lines.{line};
ghost use Rattle.rewriting.specs.declared.fault.RewriteFault.TheVariants as fault;
ghost use Rattle.rewriting.specs.Replies.{fault_refusal};

use bounded::Full;
use refusals::{Layer, Refusal};
use std::fmt;
use terms::Malformed;

#[derive(Clone, Copy, PartialEq, Eq, Debug)]
pub enum RewriteFault {
    // The codes are no term under the signature, or what is rewritten is no system or term.
    Malformed,
    NoRule,
    NoPlace,
    NoMatch,
    // The next term would have more than 1,024 codes.
    TooLong,
}

impl From<Full> for RewriteFault {
    ghost from_gives = { λ _ r. r ≡ fault.TooLong };

    fn from(_full: Full) -> Self {
        Self::TooLong
    }
}

impl From<Malformed> for RewriteFault {
    ghost from_gives = { λ _ r. r ≡ fault.Malformed };

    fn from(_malformed: Malformed) -> Self {
        Self::Malformed
    }
}

impl From<RewriteFault> for Refusal {
    ghost from_gives = { λ fault refusal. refusal ≡ fault_refusal fault };

    fn from(fault: RewriteFault) -> Refusal {
        let (number, layer) = match fault {
            RewriteFault::Malformed => (36, Layer::Review),
            RewriteFault::NoRule => (21, Layer::Job),
            RewriteFault::NoPlace => (22, Layer::Job),
            RewriteFault::NoMatch => (41, Layer::Job),
            RewriteFault::TooLong => (42, Layer::Job),
        };
        Refusal {
            number,
            layer,
            place: 0,
        }
    }
}

impl fmt::Display for RewriteFault {
    ghost output = { λ fault. Some (line (fault_refusal fault)) };

    fn fmt<W: fmt::Write>(&self, f: &mut fmt::Formatter<W>) -> fmt::Result {
        Refusal::from(*self).fmt(f)
    }
}
