// The pile of a certificate.
ghost use Rattle.std.specs.Prelude.{◌≡◌};
ghost use Rattle.piles.specs.Piles.{piled};

use crate::part::Part;
use algebras::Sum;

pub type Pile = Sum<Sum<Part, Part>, Sum<Part, Part>>;

// The sum of two sums of four parts.
pub fn pile_of(a: Part, b: Part, c: Part, d: Part) -> Pile
    ensures { result ≡ piled a b c d }
{
    Sum {
        first: Sum {
            first: a,
            second: b,
        },
        second: Sum {
            first: c,
            second: d,
        },
    }
}
