// The empty part: it fits every signature and orders nothing.
ghost use Rattle.algebras.specs.Layers.{empty_means};
ghost use Rattle.algebras.specs.Lawfuls.{empty_lawful};

use crate::algebra::{Algebra, check_size};
use crate::fault::AlgebraFault;
use crate::order::Order;
use terms::Signature;

#[derive(Clone, Copy)]
pub struct Empty {}

impl Algebra for Empty {
    ghost means = { λ _. empty_means };

    ghost lawful = { λ a. empty_lawful };

    fn fits(&self, signature: &Signature) -> bool {
        true
    }

    fn measure(&self, signature: &Signature, codes: &[u16]) -> Result<u64, AlgebraFault> {
        if signature.is_term(codes) {
            Ok(0)
        } else {
            Err(AlgebraFault::Unfit)
        }
    }

    fn compare(
        &self,
        signature: &Signature,
        left: &[u16],
        right: &[u16],
    ) -> Result<Order, AlgebraFault> {
        if signature.is_rule(left, right) {
            Ok(Order::Weak)
        } else {
            Err(AlgebraFault::Unfit)
        }
    }

    fn ceiling(&self, size: usize) -> Result<Option<u64>, AlgebraFault> {
        check_size(size)?;
        Ok(Some(0))
    }
}
