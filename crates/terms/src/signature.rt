// A signature: the number of arguments of each symbol, by symbol number.
ghost use Rattle.std.specs.Prelude.{T};
ghost use Rattle.bounded.specs.Items.{items};
ghost use Rattle.terms.specs.Shapes.{is_signature};

use bounded::ArrayVec;

mod calls;

#[derive(Clone, Copy, PartialEq, Eq)]
pub struct Signature {
    arities: ArrayVec<u8, 32>,
    ghost limited: { T (is_signature (items arities)) },
}
