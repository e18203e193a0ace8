// Why bytes are refused as a certificate.
ghost use Rattle.std.specs.Prelude.{◌≡◌, Some};
ghost use Rattle.refusals.specs.Lines.{line};
ghost use Rattle.encodings.specs.Refusals.{certificate_refusal};

use crate::flaw::RecordFlaw;
use refusals::{Layer, Refusal};
use std::fmt;

// What is wrong, and the offset of the byte, or of the record's first byte, where it is.
#[derive(Clone, Copy, PartialEq, Eq, Debug)]
pub struct CertificateFault {
    pub flaw: RecordFlaw,
    pub offset: usize,
}

impl RecordFlaw {
    pub fn at(self, offset: usize) -> CertificateFault
        ensures { result ≡ record { flaw = self; offset = offset } }
    {
        CertificateFault { flaw: self, offset }
    }
}

impl From<CertificateFault> for Refusal {
    ghost from_gives = { λ fault refusal. refusal ≡ certificate_refusal fault };

    fn from(fault: CertificateFault) -> Refusal {
        Refusal {
            number: fault.flaw.number(),
            layer: Layer::Certificate,
            place: fault.offset,
        }
    }
}

impl fmt::Display for CertificateFault {
    ghost output = { λ fault. Some (line (certificate_refusal fault)) };

    fn fmt<W: fmt::Write>(&self, f: &mut fmt::Formatter<W>) -> fmt::Result {
        Refusal::from(*self).fmt(f)
    }
}
