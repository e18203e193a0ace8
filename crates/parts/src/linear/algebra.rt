// A linear part as an algebra.
ghost use Rattle.interpretations.specs.Orders.{part_means, linear_ceiling};
ghost use Rattle.parts.specs.Views.{linear_of};
ghost use Rattle.parts.specs.Lawfuls.{linear_lawful};

use crate::linear::LinearPart;
use algebras::{Algebra, AlgebraFault, Order, check_size};
use forms::WIDTH;
use terms::{MOST_SIDE, MOST_TERM, Signature};

impl Algebra for LinearPart {
    ghost means = { λ p. part_means (linear_of p) (linear_ceiling (linear_of p)) };

    ghost lawful = { λ p. linear_lawful p };

    fn fits(&self, signature: &Signature) -> bool {
        measuring::interprets(self, signature)
    }

    fn measure(&self, signature: &Signature, codes: &[u16]) -> Result<u64, AlgebraFault> {
        let mut memory = [0; MOST_TERM];
        measuring::measure(self, signature, codes, &mut memory)
    }

    fn compare(
        &self,
        signature: &Signature,
        left: &[u16],
        right: &[u16],
    ) -> Result<Order, AlgebraFault> {
        let mut memory = [[0; WIDTH]; MOST_SIDE];
        measuring::compare(self, signature, left, right, &mut memory)
    }

    fn ceiling(&self, size: usize) -> Result<Option<u64>, AlgebraFault> {
        check_size(size)?;
        measuring::tell_ceiling(self.ceiling_at(size as u16))
    }
}
