// A rule by the codes of its sides: what makes them a rule whatever the signature.
ghost use Rattle.std.specs.Prelude.{T};
ghost use Rattle.bounded.specs.Items.{items};
ghost use Rattle.terms.specs.Shapes.{is_proper};

use bounded::ArrayVec;

mod calls;

pub(crate) use calls::is_proper;
pub use calls::{has_code, starts_with_symbol};

#[derive(Clone, Copy)]
pub struct Rule {
    left: ArrayVec<u16, 32>,
    right: ArrayVec<u16, 32>,
    ghost proper: { T (is_proper (items left) (items right)) },
}
