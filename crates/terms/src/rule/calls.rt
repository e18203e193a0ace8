// The tests of two sides, and the checked constructor.
ghost use Rattle.std.specs.Prelude.{◌≡◌, ◌≤◌, [], ◌∷◌, length};
ghost use Rattle.bounded.specs.Items.{items};
ghost use Rattle.terms.specs.Shapes.{has, covers, all_within, starts_with_symbol, is_side, is_proper};
ghost use Rattle.terms.specs.Models.{Sides, sides_of};
ghost use Rattle.terms.specs.Replies.{viewed, rule_reply};

use crate::malformed::Malformed;
use crate::rule::Rule;
use crate::{FIRST_VARIABLE, LAST_VARIABLE, MOST_SIDE};
use bounded::ArrayVec;

// Whether a code is among others.
pub fn has_code(codes: &[u16], code: u16) -> bool
    ensures { result ≡ has codes.now code }
{
    codes.contains(&code)
}

fn covers_variables(left: &[u16], right: &[u16]) -> bool
    ensures { result ≡ covers left.now right.now }
{
    right
        .iter()
        .all(|code| *code < FIRST_VARIABLE || has_code(left, *code))
}

// Whether codes begin with a symbol's, as those of a term do that is no variable.
pub fn starts_with_symbol(codes: &[u16]) -> bool
    ensures { result ≡ starts_with_symbol codes.now }
{
    codes.first().is_some_and(|code| *code < FIRST_VARIABLE)
}

fn has_few_variables(codes: &[u16]) -> bool
    ensures { result ≡ all_within 32775 codes.now }
{
    codes.iter().all(|code| *code <= LAST_VARIABLE)
}

fn is_side(codes: &[u16]) -> bool
    ensures { result ≡ is_side codes.now }
{
    !codes.is_empty() && codes.len() <= MOST_SIDE && has_few_variables(codes)
}

// Whether two sides are a rule under some signature: the left is no variable, and has all variables of the right.
pub(crate) fn is_proper(left: &[u16], right: &[u16]) -> bool
    ensures { result ≡ is_proper left.now right.now }
{
    is_side(left) && is_side(right) && starts_with_symbol(left) && covers_variables(left, right)
}

impl Rule {
    pub fn new(left: &[u16], right: &[u16]) -> Result<Rule, Malformed>
        ensures { viewed sides_of result ≡ rule_reply left.now right.now }
    {
        if !is_proper(left, right) {
            return Err(Malformed::Rule);
        }
        Ok(Rule {
            left: ArrayVec::from_slice(0, left).unwrap(),
            right: ArrayVec::from_slice(0, right).unwrap(),
        })
    }

    // A rule for memory that holds no rule of a system yet.
    pub fn unused() -> Rule
        ensures { sides_of result ≡ record { left = 0 ∷ []; right = 0 ∷ [] } }
    {
        Rule {
            left: ArrayVec::from_slice(0, &[0]).unwrap(),
            right: ArrayVec::from_slice(0, &[0]).unwrap(),
        }
    }

    pub fn left(&self) -> &[u16]
        ensures { result.now ≡ (sides_of self.now).left }
    {
        self.left.as_slice()
    }

    pub fn right(&self) -> &[u16]
        ensures { result.now ≡ (sides_of self.now).right }
    {
        self.right.as_slice()
    }
}
