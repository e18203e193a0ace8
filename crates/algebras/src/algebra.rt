// What every algebra answers. The laws are owed once, of the meaning; the calls tell of it.
ghost use Rattle.std.specs.Prelude.{◌≡◌};
ghost use Rattle.terms.specs.Models.{arities_of};
ghost use Rattle.algebras.specs.Meanings.{Meaning, Lawful};
ghost use Rattle.algebras.specs.Replies.{measured, compared, size_reply, ceiling_reply};
ghost use Rattle.algebras.specs.Laws.{MeasuredExactly, ComparedExactly, CeilingExactly};

use crate::fault::AlgebraFault;
use crate::order::Order;
use terms::{MOST_TERM, Signature};

pub trait Algebra {
    ghost means: { Self → Meaning };

    fn fits(&self, signature: &Signature) -> bool
        ensures { result ≡ (means self.now).fits (arities_of signature.now) };

    // The height of a term.
    fn measure(&self, signature: &Signature, codes: &[u16]) -> Result<u64, AlgebraFault>
        ensures value { result ≡ measured (means self.now) (arities_of signature.now) codes.now }
        ensures exactly { MeasuredExactly (means self.now) (arities_of signature.now) codes.now result };

    // The order of a rule's sides.
    fn compare(
        &self,
        signature: &Signature,
        left: &[u16],
        right: &[u16],
    ) -> Result<Order, AlgebraFault>
        ensures value { result ≡ compared (means self.now) (arities_of signature.now) left.now right.now }
        ensures exactly { ComparedExactly (means self.now) (arities_of signature.now) left.now right.now result };

    // What the heights of all terms of a size are at most; none, if there is no such number.
    fn ceiling(&self, size: usize) -> Result<Option<u64>, AlgebraFault>
        ensures value { result ≡ ceiling_reply (means self.now) size }
        ensures exactly { CeilingExactly (means self.now) size result };

    ghost lawful: { (a : Self) → Lawful (means a) };
}

// Passes a size that a term within the limit may have.
pub fn check_size(size: usize) -> Result<(), AlgebraFault>
    ensures { result ≡ size_reply size }
{
    if size < 1 || size > MOST_TERM {
        return Err(AlgebraFault::SizeOutOfRange);
    }
    Ok(())
}
