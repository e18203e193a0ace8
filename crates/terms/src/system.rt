// A system: a signature, and rules over it.
ghost use Rattle.std.specs.Prelude.{T};
ghost use Rattle.bounded.specs.Items.{items};
ghost use Rattle.terms.specs.Models.{arities_of, all_sides, all_rules};

use crate::rule::Rule;
use crate::signature::Signature;
use bounded::ArrayVec;

mod calls;

#[derive(Clone, Copy)]
pub struct System {
    signature: Signature,
    rules: ArrayVec<Rule, 32>,
    ghost over: { T (all_rules (arities_of signature) (all_sides (items rules))) },
}
