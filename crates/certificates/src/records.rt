// The bodies of records, whole.
ghost use Rattle.std.specs.Prelude.{◌≡◌, ◌+◌, ◌*◌, ◌≤◌, sum_by};
ghost use Rattle.terms.specs.Models.{arities_of};
ghost use Rattle.terms.specs.Replies.{viewed};
ghost use Rattle.encodings.specs.Bodies.{Proper, header_reply, linear_reply, matrix_reply};
ghost use Rattle.certificates.specs.Bodies.{body_of};
ghost use Rattle.certificates.specs.Parts.{kept_part, kept};

use crate::body::Body;
use encodings::{CertificateFault, RecordFlaw};
use parts::{LinearPart, MatrixPart};
use piles::Part;
use terms::Signature;

// The bytes of all symbols, of which each has some of its own and some for each argument.
fn size(signature: &Signature, own: usize, argument: usize) -> usize
    requires own { own ≤ 4 }
    requires argument { argument ≤ 16 }
    ensures { result ≡ sum_by (λ arity. own + arity * argument) (arities_of signature.now) }
{
    signature
        .arities()
        .iter()
        .map(|arity| own + *arity as usize * argument)
        .sum()
}

impl<'a> Body<'a> {
    // The number of parts. The number of symbols is the signature's.
    pub fn header(mut self, signature: &Signature) -> Result<u8, CertificateFault>
        ensures { result ≡ header_reply (arities_of signature.now) (body_of self.entry) }
    {
        self.check_size(2)?;
        let parts = self.ranged(1, 4)?;
        let offset = self.at;
        if self.byte()? as usize != signature.arities().len() {
            return Err(RecordFlaw::WrongSymbols.at(offset));
        }
        Ok(parts)
    }

    pub fn linear_part(mut self, signature: &Signature) -> Result<Part, CertificateFault>
        requires { Proper (body_of self) }
        ensures { viewed kept_part result ≡ viewed (kept (arities_of signature.now)) (linear_reply (arities_of signature.now) (body_of self.entry)) }
    {
        self.check_size(size(signature, 1, 1))?;
        let symbols = self.linear_symbols(signature)?;
        match LinearPart::new(*signature, symbols) {
            Some(part) => Ok(Part::Linear(part)),
            // A factor 0 is refused where it stands.
            None => unreachable!(),
        }
    }

    // The dimension comes first, and is judged before the length.
    pub fn matrix_part(mut self, signature: &Signature) -> Result<Part, CertificateFault>
        requires { Proper (body_of self) }
        ensures { viewed kept_part result ≡ viewed (kept (arities_of signature.now)) (matrix_reply (arities_of signature.now) (body_of self.entry)) }
    {
        let dimension = self.ranged(1, 4)? as usize;
        self.check_size(size(signature, dimension, dimension * dimension))?;
        let symbols = self.matrix_symbols(dimension, signature)?;
        match MatrixPart::new(*signature, dimension, symbols) {
            Some(part) => Ok(Part::Matrix(part)),
            // So is a top left entry 0.
            None => unreachable!(),
        }
    }
}
