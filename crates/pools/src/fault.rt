// Why a pool refuses.
ghost use Rattle.std.specs.Prelude.{◌≡◌, Some};
ghost use Rattle.refusals.specs.Lines.{line};
ghost use Rattle.pools.specs.Faults.{pool_refusal};

use refusals::{Layer, Refusal};
use std::fmt;

#[derive(Clone, Copy, PartialEq, Eq, Debug)]
pub enum PoolFault {
    // A size or an amount that no pool can have, or no first number.
    OutOfRange,
    AboveFree,
    // The last grant number is already given.
    NumbersGiven,
    // Settling would free more than the pool's size.
    AboveSize,
}

impl From<PoolFault> for Refusal {
    ghost from_gives = { λ f r. r ≡ pool_refusal f };

    fn from(fault: PoolFault) -> Refusal {
        let number = match fault {
            PoolFault::OutOfRange => 24,
            PoolFault::AboveFree => 47,
            PoolFault::NumbersGiven => 48,
            PoolFault::AboveSize => 46,
        };
        Refusal {
            number,
            layer: Layer::Pool,
            place: 0,
        }
    }
}

// The line of its refusal.
impl fmt::Display for PoolFault {
    ghost output = { λ f. Some (line (pool_refusal f)) };

    fn fmt<W: fmt::Write>(&self, f: &mut fmt::Formatter<W>) -> fmt::Result {
        Refusal::from(*self).fmt(f)
    }
}
