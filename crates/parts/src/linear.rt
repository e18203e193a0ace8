// A linear part: a symbol adds its constant to its arguments, each times a factor.
ghost use Rattle.std.specs.Prelude.{T};
ghost use Rattle.terms.specs.Models.{arities_of};
ghost use Rattle.parts.specs.Kinds.{linear_part, positive};

use terms::Signature;

pub mod algebra;
pub mod calls;
pub mod given;

// What a symbol adds, and the factor of each argument.
#[derive(Clone, Copy)]
pub struct LinearSymbol {
    pub constant: u8,
    pub factors: [u8; 4],
}

#[derive(Clone, Copy)]
pub struct LinearPart {
    signature: Signature,
    symbols: [LinearSymbol; 32],
    ghost tops: { T (positive (linear_part (arities_of signature) symbols)) },
}
