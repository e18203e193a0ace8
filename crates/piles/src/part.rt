// A part of a certificate: linear, matrix or empty. What is missing is empty.
ghost use Rattle.piles.specs.Parts.{part_algebra};
ghost use Rattle.piles.specs.Lawful;

use algebras::{Algebra, AlgebraFault, Empty, Order};
use parts::{LinearPart, MatrixPart};
use terms::Signature;

#[derive(Clone, Copy)]
pub enum Part {
    Linear(LinearPart),
    Matrix(MatrixPart),
    Missing(Empty),
}

// The same call of whichever part it is.
macro_rules! with_part {
    ($value:expr, $part:ident => $call:expr) => {
        match $value {
            Part::Linear($part) => $call,
            Part::Matrix($part) => $call,
            Part::Missing($part) => $call,
        }
    };
}

impl Algebra for Part {
    ghost means = { part_algebra };

    ghost lawful = { λ q. Lawful.lawful q };

    fn fits(&self, signature: &Signature) -> bool {
        with_part!(self, part => part.fits(signature))
    }

    fn measure(&self, signature: &Signature, codes: &[u16]) -> Result<u64, AlgebraFault> {
        with_part!(self, part => part.measure(signature, codes))
    }

    fn compare(
        &self,
        signature: &Signature,
        left: &[u16],
        right: &[u16],
    ) -> Result<Order, AlgebraFault> {
        with_part!(self, part => part.compare(signature, left, right))
    }

    fn ceiling(&self, size: usize) -> Result<Option<u64>, AlgebraFault> {
        with_part!(self, part => part.ceiling(size))
    }
}
