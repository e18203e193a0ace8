// A review: does an algebra fit a system, and is every rule strict in it?
ghost use Rattle.std.specs.Prelude.{◌≡◌, Some};
ghost use Rattle.refusals.specs.Lines.{line};
ghost use Rattle.terms.specs.Models.{arities_of, all_sides};
ghost use Rattle.terms.specs.Systems.{signature_of, listed_rules, rules_of};
ghost use Rattle.algebras.specs.Reviews.{review_refusal, judged, rules_reply, review_reply, Reviewed};

use crate::algebra::Algebra;
use crate::fault::AlgebraFault;
use crate::order::Order;
use refusals::{Layer, Refusal};
use std::fmt;
use terms::{Rule, Signature, System};

// The algebra does not fit, or the rule of a number is the first that does not pass.
#[derive(Clone, Copy, PartialEq, Eq, Debug)]
pub enum ReviewFault {
    Unfit,
    RuleOutOfReach(usize),
    RuleNotWeak(usize),
    RuleWeakOnly(usize),
}

impl From<ReviewFault> for Refusal {
    ghost from_gives = { λ f r. r ≡ review_refusal f };

    fn from(fault: ReviewFault) -> Refusal {
        let (number, place) = match fault {
            ReviewFault::Unfit => (36, 0),
            ReviewFault::RuleOutOfReach(rule) => (32, rule),
            ReviewFault::RuleNotWeak(rule) => (34, rule),
            ReviewFault::RuleWeakOnly(rule) => (33, rule),
        };
        Refusal {
            number,
            layer: Layer::Review,
            place,
        }
    }
}

// The line of its refusal.
impl fmt::Display for ReviewFault {
    ghost output = { λ f. Some (line (review_refusal f)) };

    fn fmt<W: fmt::Write>(&self, f: &mut fmt::Formatter<W>) -> fmt::Result {
        Refusal::from(*self).fmt(f)
    }
}

// The rules of a system are never a misfit where its signature fits, so that the last case does not come.
fn judge(number: usize, order: Result<Order, AlgebraFault>) -> Result<(), ReviewFault>
    ensures { result ≡ judged number order }
{
    match order {
        Ok(Order::Strict) => Ok(()),
        Ok(Order::Weak) => Err(ReviewFault::RuleWeakOnly(number)),
        Ok(Order::Neither) => Err(ReviewFault::RuleNotWeak(number)),
        Err(AlgebraFault::RuleOutOfReach) => Err(ReviewFault::RuleOutOfReach(number)),
        Err(_) => Err(ReviewFault::Unfit),
    }
}

fn review_rules<A: Algebra>(
    algebra: &A,
    signature: &Signature,
    rules: &[Rule],
) -> Result<(), ReviewFault>
    ensures { result ≡ rules_reply (A.means algebra.now) (arities_of signature.now) 0 (all_sides rules.now) }
{
    for (number, rule) in rules.iter().enumerate() {
        let order = algebra.compare(signature, rule.left(), rule.right());
        judge(number, order)?;
    }
    Ok(())
}

// Passes if every rule is strict: then every derivation from a term is no longer than the term's height.
pub fn review<A: Algebra>(algebra: &A, system: &System) -> Result<(), ReviewFault>
    ensures value { result ≡ review_reply (A.means algebra.now) (signature_of system.now) (all_sides (listed_rules system.now)) }
    ensures exactly { Reviewed (A.means algebra.now) (signature_of system.now) (rules_of system.now) result }
{
    let signature = system.signature();
    if !algebra.fits(signature) {
        return Err(ReviewFault::Unfit);
    }
    review_rules(algebra, signature, system.rules())
}
