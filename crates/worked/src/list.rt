// The list.
ghost use Rattle.std.specs.Prelude.{◌≡◌};
ghost use Rattle.worked.specs.Cases.{worked};
ghost use Rattle.worked.specs.Views.{cases_of};

use crate::question::Question;
use crate::report::Report;

#[derive(Clone, Copy)]
pub struct Case<Q, A> {
    pub question: Q,
    pub expected: A,
}

impl<Q: Copy, A: Copy> Case<Q, A> {
    pub fn report(&self, answer: A) -> Report<Q, A>
        ensures question { result.question ≡ self.now.question }
        ensures answer { result.answer ≡ answer }
        ensures expected { result.expected ≡ self.now.expected }
    {
        Report {
            question: self.question,
            answer,
            expected: self.expected,
        }
    }
}

pub fn worked_cases() -> [Case<Question, bool>; 6]
    ensures { cases_of result ≡ worked }
{
    [
        Case {
            question: Question::IsTerm(&[0, 2, 1, 1]),
            expected: true,
        },
        Case {
            question: Question::IsTerm(&[0, 2, 1]),
            expected: false,
        },
        Case {
            question: Question::IsTerm(&[1, 1]),
            expected: false,
        },
        Case {
            question: Question::IsTerm(&[]),
            expected: false,
        },
        Case {
            question: Question::Matches(&[0, 32768, 32768], &[0, 1, 1]),
            expected: true,
        },
        Case {
            question: Question::Matches(&[0, 32768, 32768], &[0, 1, 2, 1]),
            expected: false,
        },
    ]
}
