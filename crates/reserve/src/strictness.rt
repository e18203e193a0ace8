// Which part makes a rule strict.
ghost use Rattle.std.specs.Prelude.{◌≡◌, position};
ghost use Rattle.terms.specs.Models.{arities_of, sides_of};
ghost use Rattle.reserve.specs.Strictness.{is_strict};

use algebras::{Algebra, Order};
use piles::Part;
use terms::{Rule, Signature};

fn is_strict(part: &Part, signature: &Signature, rule: &Rule) -> bool
    ensures { result ≡ is_strict part.now (arities_of signature.now) (sides_of rule.now) }
{
    part.compare(signature, rule.left(), rule.right()) == Ok(Order::Strict)
}

// The lowest of the parts that are strict on a rule by themselves.
pub fn strict_part(parts: &[Part], signature: &Signature, rule: &Rule) -> Option<usize>
    ensures { result ≡ position (λ part. is_strict part (arities_of signature.now) (sides_of rule.now)) parts.now }
{
    parts
        .iter()
        .position(|part| is_strict(part, signature, rule))
}
