// An algebra whose ceilings are out of reach, though all its heights are 0.
ghost use Rattle.plugin.specs.Wide.{wide_means, wide_lawful};

use algebras::{Algebra, AlgebraFault, Empty, Order, check_size};
use terms::Signature;

#[derive(Clone, Copy)]
pub struct Widest {}

impl Algebra for Widest {
    ghost means = { λ _. wide_means };

    ghost lawful = { λ _. wide_lawful };

    fn fits(&self, signature: &Signature) -> bool {
        Empty {}.fits(signature)
    }

    fn measure(&self, signature: &Signature, codes: &[u16]) -> Result<u64, AlgebraFault> {
        Empty {}.measure(signature, codes)
    }

    fn compare(
        &self,
        signature: &Signature,
        left: &[u16],
        right: &[u16],
    ) -> Result<Order, AlgebraFault> {
        Empty {}.compare(signature, left, right)
    }

    fn ceiling(&self, size: usize) -> Result<Option<u64>, AlgebraFault> {
        check_size(size)?;
        Err(AlgebraFault::CeilingOutOfReach)
    }
}
