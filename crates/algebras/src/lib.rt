// Algebras: what bounds the derivations of a system. An algebra's meaning and its laws stand in specs/Meanings.antt;
// the calls answer for it on codes, and say what that means for terms (specs/Laws.antt).
#![tactic(auto)]

pub mod algebra;
pub mod empty;
pub mod fault;
pub mod order;
pub mod reviewing;
pub mod sum;

pub use algebra::{Algebra, check_size};
pub use empty::Empty;
pub use fault::AlgebraFault;
pub use order::Order;
pub use reviewing::{ReviewFault, review};
pub use sum::Sum;

// Heights and ceilings that are told are at most this.
pub const REACH: u64 = 1_099_511_627_775;

#[cfg(test)]
mod tests {
    use super::*;
    use std::test::Fail;
    use terms::{Rule, Signature, System};

    // add, zero and successor
    fn addition() -> Result<Signature, Fail> {
        Ok(Signature::new(&[2, 0, 1])?)
    }

    #[test]
    fn an_empty_part_orders_nothing(rt: HostRuntime) -> Result<(), Fail> {
        let signature = addition()?;
        let empty = Empty {};
        assert!(rt; empty.measure(&signature, &[2, 1]) == Ok(0));
        assert!(rt; empty.measure(&signature, &[2]) == Err(AlgebraFault::Unfit));
        assert!(rt; empty.ceiling(1025) == Err(AlgebraFault::SizeOutOfRange));
        Ok(())
    }

    #[test]
    fn a_sum_of_empty_parts_passes_no_rule(rt: HostRuntime) -> Result<(), Fail> {
        let signature = addition()?;
        let sum = Sum {
            first: Empty {},
            second: Empty {},
        };
        assert!(rt; sum.compare(&signature, &[0, 1, 32768], &[32768]) == Ok(Order::Weak));
        assert!(rt; sum.ceiling(1024) == Ok(Some(0)));
        let rule = Rule::new(&[0, 1, 32768], &[32768])?;
        let system = System::new(signature, &[rule])?;
        assert!(rt; review(&sum, &system) == Err(ReviewFault::RuleWeakOnly(0)));
        Ok(())
    }
}
