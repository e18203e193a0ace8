// The list: the cases on codes and on parts, and one on a text.
ghost use Rattle.std.specs.Prelude.{◌≡◌, map};
ghost use Rattle.bounded.specs.Items.{items};
ghost use Rattle.worked.specs.Cases.{worked as codes_worked};
ghost use Rattle.worked.specs.Views.{case_of as codes_case_of};
ghost use Rattle.worked_parts.specs.Cases.{worked as parts_worked};
ghost use Rattle.worked_parts.specs.Views.{case_of as parts_case_of};
ghost use Rattle.cases.specs.Cases.{codes_case, parts_case, worked};
ghost use Rattle.cases.specs.Views.{case_of, cases_of};

use crate::question::{Answer, Question};
use bounded::ArrayVec;
use refusals::{Layer, Refusal};

pub type Case = worked::Case<Question, Answer>;

fn on_codes(case: worked::Case<worked::Question, bool>) -> Case
    ensures { case_of result ≡ codes_case (codes_case_of case) }
{
    Case {
        question: Question::OnCodes(case.question),
        expected: Answer::OnCodes(case.expected),
    }
}

fn on_parts(case: worked_parts::Case) -> Case
    ensures { case_of result ≡ parts_case (parts_case_of case) }
{
    Case {
        question: Question::OnParts(case.question),
        expected: Answer::OnParts(case.expected),
    }
}

fn codes_cases() -> [Case; 6]
    ensures { cases_of result ≡ map codes_case codes_worked }
{
    worked::worked_cases().map(on_codes)
}

fn parts_cases() -> [Case; 9]
    ensures { cases_of result ≡ map parts_case parts_worked }
{
    worked_parts::worked_cases().map(on_parts)
}

pub fn worked_cases() -> ArrayVec<Case, 16>
    ensures { cases_of (items result) ≡ worked }
{
    let text = Case {
        question: Question::RuleText("(VAR a)(RULES a -> a)"),
        expected: Answer::RuleText(Err(Refusal {
            number: 5,
            layer: Layer::Rules,
            place: 16,
        })),
    };
    let mut cases = ArrayVec::new(text);
    cases.extend(&codes_cases()).unwrap();
    cases.extend(&parts_cases()).unwrap();
    cases.push(text).unwrap();
    cases
}
