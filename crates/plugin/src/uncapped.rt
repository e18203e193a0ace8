// Any algebra without its ceilings: its laws are argued from those below.
ghost use Rattle.plugin.specs.Layer.{uncapped_means};
ghost use Rattle.plugin.specs.Lawful.{uncapped_lawful};

use algebras::{Algebra, AlgebraFault, Order, check_size};
use terms::Signature;

#[derive(Clone, Copy)]
pub struct Uncapped<A> {
    pub below: A,
}

impl<A: Algebra> Algebra for Uncapped<A> {
    ghost means = { λ s. uncapped_means (A.Algebra.means s.below) };

    ghost lawful = { λ s. uncapped_lawful (A.Algebra.means s.below) (A.Algebra.lawful s.below) };

    fn fits(&self, signature: &Signature) -> bool {
        self.below.fits(signature)
    }

    fn measure(&self, signature: &Signature, codes: &[u16]) -> Result<u64, AlgebraFault> {
        self.below.measure(signature, codes)
    }

    fn compare(
        &self,
        signature: &Signature,
        left: &[u16],
        right: &[u16],
    ) -> Result<Order, AlgebraFault> {
        self.below.compare(signature, left, right)
    }

    fn ceiling(&self, size: usize) -> Result<Option<u64>, AlgebraFault> {
        check_size(size)?;
        Ok(None)
    }
}
