// A matrix part as an algebra.
ghost use Rattle.interpretations.specs.Orders.{part_means, no_ceiling};
ghost use Rattle.parts.specs.Views.{matrix_of};
ghost use Rattle.parts.specs.Lawfuls.{matrix_lawful};

use crate::matrix::MatrixPart;
use algebras::{Algebra, AlgebraFault, Order, check_size};
use forms::WIDTH;
use terms::{MOST_SIDE, MOST_TERM, Signature};

impl Algebra for MatrixPart {
    ghost means = { λ p. part_means (matrix_of p) no_ceiling };

    ghost lawful = { λ p. matrix_lawful p };

    fn fits(&self, signature: &Signature) -> bool {
        measuring::interprets(self, signature)
    }

    fn measure(&self, signature: &Signature, codes: &[u16]) -> Result<u64, AlgebraFault> {
        let mut memory = [[0; 4]; MOST_TERM];
        measuring::measure(self, signature, codes, &mut memory)
    }

    fn compare(
        &self,
        signature: &Signature,
        left: &[u16],
        right: &[u16],
    ) -> Result<Order, AlgebraFault> {
        let mut memory = [[[0; 4]; WIDTH]; MOST_SIDE];
        measuring::compare(self, signature, left, right, &mut memory)
    }

    fn ceiling(&self, size: usize) -> Result<Option<u64>, AlgebraFault> {
        check_size(size)?;
        Ok(None)
    }
}
