// Questions on codes, on parts, or on a rule text.
ghost use Rattle.std.specs.Prelude.{◌≡◌, Some};
ghost use Rattle.cases.specs.Cases.{answered};
ghost use Rattle.cases.specs.Lines.{answer_text, question_text};
ghost use Rattle.cases.specs.Views.{question_of};

use refusals::Refusal;
use std::fmt;
use texts::read_rules;

#[derive(Clone, Copy)]
pub enum Question {
    OnCodes(worked::Question),
    OnParts(worked_parts::Question),
    // What does a rule text come to?
    RuleText(&'static str),
}

#[derive(Clone, Copy, PartialEq, Eq, Debug)]
pub enum Answer {
    OnCodes(bool),
    OnParts(worked_parts::Answer),
    RuleText(Result<(), Refusal>),
}

impl Question {
    pub fn answer(&self) -> Answer
        ensures { result ≡ answered (question_of self.now) }
    {
        match *self {
            Question::OnCodes(question) => Answer::OnCodes(question.answer()),
            Question::OnParts(question) => Answer::OnParts(question.answer()),
            Question::RuleText(text) => {
                let read = read_rules(text.as_bytes());
                Answer::RuleText(read.map(|_| ()).map_err(Refusal::from))
            }
        }
    }
}

impl fmt::Display for Question {
    ghost output = { λ q. Some (question_text (question_of q)) };

    fn fmt<W: fmt::Write>(&self, f: &mut fmt::Formatter<W>) -> fmt::Result {
        match self {
            Question::OnCodes(question) => question.fmt(f),
            Question::OnParts(question) => question.fmt(f),
            Question::RuleText(text) => write!(f, "rules {text}"),
        }
    }
}

impl fmt::Display for Answer {
    ghost output = { λ a. Some (answer_text a) };

    fn fmt<W: fmt::Write>(&self, f: &mut fmt::Formatter<W>) -> fmt::Result {
        match self {
            Answer::OnCodes(answer) => answer.fmt(f),
            Answer::OnParts(answer) => answer.fmt(f),
            Answer::RuleText(Ok(())) => f.write_str("accepted"),
            Answer::RuleText(Err(refusal)) => refusal.fmt(f),
        }
    }
}
