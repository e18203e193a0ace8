// A certificate, read from bytes.
ghost use Rattle.std.specs.Prelude.{◌≡◌};
ghost use Rattle.bounded.specs.Items.{items};
ghost use Rattle.terms.specs.Models.{arities_of};
ghost use Rattle.terms.specs.Replies.{viewed};
ghost use Rattle.encodings.specs.Reading.{certificate_reply};
ghost use Rattle.certificates.specs.Parts.{all_kept};
ghost use Rattle.certificates.specs.Certificates.{parts_of, nth_part, certificate_pile};
ghost use Rattle.certificates.specs.Laws.{ReadExactly};
ghost use Rattle.certificates.specs.Meanings.{all_algebras, algebras_of};

use crate::reader::Reader;
use algebras::Empty;
use bounded::ArrayVec;
use encodings::CertificateFault;
use piles::{Part, Pile, pile_of};
use terms::Signature;

// One to four parts.
#[derive(Clone, Copy)]
pub struct Certificate {
    pub(crate) parts: ArrayVec<Part, 4>,
}

impl Certificate {
    // Those that it has.
    pub fn parts(&self) -> &[Part]
        ensures { result.now ≡ items self.now.parts }
    {
        self.parts.as_slice()
    }

    // The sum of two sums of four parts, of which the missing ones are empty.
    pub fn pile(&self) -> Pile
        ensures { result ≡ certificate_pile (items self.now.parts) }
    {
        pile_of(self.part(0), self.part(1), self.part(2), self.part(3))
    }

    fn part(&self, place: usize) -> Part
        ensures { result ≡ nth_part (items self.now.parts) place }
    {
        let part = self.parts().get(place);
        part.copied().unwrap_or(Part::Missing(Empty {}))
    }
}

// The parts that bytes say over a signature, or the first fault.
pub fn read_certificate(
    signature: &Signature,
    bytes: &[u8],
) -> Result<Certificate, CertificateFault>
    ensures value { viewed parts_of result ≡ viewed (all_kept (arities_of signature.now)) (certificate_reply (arities_of signature.now) bytes.now) }
    ensures exactly { ReadExactly (arities_of signature.now) bytes.now (viewed parts_of result) }
    ensures means { viewed algebras_of result ≡ viewed (all_algebras (arities_of signature.now)) (certificate_reply (arities_of signature.now) bytes.now) }
{
    Reader::new(signature, bytes).read_all()
}
