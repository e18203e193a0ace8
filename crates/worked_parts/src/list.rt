// The list.
ghost use Rattle.std.specs.Prelude.{◌≡◌};
ghost use Rattle.worked_parts.specs.Cases.{ordered, high, worked};
ghost use Rattle.worked_parts.specs.Views.{case_of, cases_of};

use crate::question::{Answer, Question};
use crate::worked_part::WorkedPart;
use algebras::{AlgebraFault, Order};

pub type Case = worked::Case<Question, Answer>;

fn order(which: WorkedPart, left: &'static [u16], right: &'static [u16], order: Order) -> Case
    ensures { case_of result ≡ ordered which left.now right.now order }
{
    Case {
        question: Question::Order(which, left, right),
        expected: Answer::Order(Ok(order)),
    }
}

fn height(which: WorkedPart, codes: &'static [u16], height: Result<u64, AlgebraFault>) -> Case
    ensures { case_of result ≡ high which codes.now height }
{
    Case {
        question: Question::Height(which, codes),
        expected: Answer::Height(height),
    }
}

pub fn worked_cases() -> [Case; 9]
    ensures { cases_of result ≡ worked }
{
    // add(z, b) -> b and add(s(a), b) -> s(add(a, b)); add(s(s(z)), s(z))
    let base: &[u16] = &[0, 1, 32769];
    let step: &[u16] = &[0, 2, 32768, 32769];
    let moved: &[u16] = &[2, 0, 32768, 32769];
    let start: &[u16] = &[0, 2, 2, 1, 2, 1];
    [
        order(WorkedPart::First, base, &[32769], Order::Strict),
        order(WorkedPart::First, step, moved, Order::Weak),
        order(WorkedPart::Second, base, &[32769], Order::Weak),
        order(WorkedPart::Second, step, moved, Order::Strict),
        height(WorkedPart::First, start, Ok(1)),
        height(WorkedPart::Second, start, Ok(2)),
        Case {
            question: Question::Ceiling(WorkedPart::First, 6),
            expected: Answer::Ceiling(Ok(Some(6))),
        },
        height(
            WorkedPart::Powers,
            &[2, 2, 2, 2, 2, 1],
            Ok(1_078_203_909_375),
        ),
        height(
            WorkedPart::Powers,
            &[2, 2, 2, 2, 2, 2, 1],
            Err(AlgebraFault::HeightOutOfReach),
        ),
    ]
}
