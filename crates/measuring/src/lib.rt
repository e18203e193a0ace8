// What parts answer as algebras, under a signature that has to be their own.
#![tactic(auto)]

ghost use Rattle.std.specs.Prelude.{◌≡◌, ◌≤◌, ◌&&◌, length, if◌then◌else◌};
ghost use Rattle.evaluation.specs.Replies.{remembered};
ghost use Rattle.forms.specs.Columns.{single, forms};
ghost use Rattle.forms.specs.Replies.{remembered_both};
ghost use Rattle.terms.specs.Models.{arities_of};
ghost use Rattle.terms.specs.Codes.{is_term};
ghost use Rattle.terms.specs.Shapes.{is_rule};
ghost use Rattle.algebras.specs.Replies.{measured, compared, ceiling_told};
ghost use Rattle.interpretations.specs.Numbers.{same_list};
ghost use Rattle.interpretations.specs.Orders.{part_means, no_ceiling};

use algebras::{AlgebraFault, Order, REACH};
use forms::{Form, Reckoning};
use terms::Signature;

// Whether it is the signature that the part interprets.
#[tactic(auto, using(crate::proofs::Told::pointwise_same_list))]
pub fn interprets<P: Reckoning>(part: &P, signature: &Signature) -> bool
    ensures { result ≡ same_list (arities_of signature.now) (P.meaning part.now).sig }
{
    signature == part.signature()
}

// The height of a term, in memory for any term.
pub fn measure<P: Reckoning>(
    part: &P,
    signature: &Signature,
    codes: &[u16],
    memory: &mut [P::Vector],
) -> Result<u64, AlgebraFault>
    requires { 1024 ≤ length memory.old }
    ensures value { result ≡ measured (part_means (P.meaning part.now) no_ceiling) (arities_of signature.now) codes.now }
    ensures memory { memory.new ≡ (if same_list (arities_of signature.now) (P.meaning part.now).sig && is_term (arities_of signature.now) codes.now then remembered (single (P.columns part.now)) (P.meaning part.now).sig codes.now memory.old else memory.old) }
{
    if !interprets(part, signature) || !signature.is_term(codes) {
        return Err(AlgebraFault::Unfit);
    }
    forms::height(part, codes, memory).ok_or(AlgebraFault::HeightOutOfReach)
}

// The order of a rule's sides, in memory for any side.
pub fn compare<P: Reckoning>(
    part: &P,
    signature: &Signature,
    left: &[u16],
    right: &[u16],
    memory: &mut [Form<P::Vector>],
) -> Result<Order, AlgebraFault>
    requires { 32 ≤ length memory.old }
    ensures value { result ≡ compared (part_means (P.meaning part.now) no_ceiling) (arities_of signature.now) left.now right.now }
    ensures memory { memory.new ≡ (if same_list (arities_of signature.now) (P.meaning part.now).sig && is_rule (arities_of signature.now) left.now right.now then remembered_both (forms (P.columns part.now)) (P.meaning part.now).sig left.now right.now memory.old else memory.old) }
{
    if !interprets(part, signature) || !signature.is_rule(left, right) {
        return Err(AlgebraFault::Unfit);
    }
    forms::compare(part, left, right, memory).ok_or(AlgebraFault::RuleOutOfReach)
}

// A ceiling, if it is within reach.
pub fn tell_ceiling(ceiling: Option<u64>) -> Result<Option<u64>, AlgebraFault>
    ensures { result ≡ ceiling_told ceiling }
{
    match ceiling {
        Some(most) if most > REACH => Err(AlgebraFault::CeilingOutOfReach),
        _ => Ok(ceiling),
    }
}
