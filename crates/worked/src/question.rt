// Questions over addition: add, z and s are numbered 0, 1 and 2, the variables a and b 0 and 1.
ghost use Rattle.std.specs.Prelude.{◌≡◌, Some};
ghost use Rattle.worked.specs.Cases.{answered};
ghost use Rattle.worked.specs.Views.{question_of};
ghost use Rattle.worked.specs.Lines.{question_text};

use crate::system::addition;
use rewriting::matches;
use std::fmt;
use terms::Codes;

#[derive(Clone, Copy)]
pub enum Question {
    IsTerm(&'static [u16]),
    // Does the first match the second at its root?
    Matches(&'static [u16], &'static [u16]),
}

impl Question {
    pub fn answer(&self) -> bool
        ensures { result ≡ answered (question_of self.now) }
    {
        let system = addition();
        match *self {
            Question::IsTerm(codes) => system.signature().is_term(codes),
            Question::Matches(pattern, subject) => {
                matches(system.signature(), pattern, subject, 0).unwrap_or(false)
            }
        }
    }
}

impl fmt::Display for Question {
    ghost output = { λ q. Some (question_text (question_of q)) };

    fn fmt<W: fmt::Write>(&self, f: &mut fmt::Formatter<W>) -> fmt::Result {
        match *self {
            Question::IsTerm(codes) => write!(f, "term{}", Codes(codes)),
            Question::Matches(pattern, subject) => {
                write!(f, "match{} with{}", Codes(pattern), Codes(subject))
            }
        }
    }
}
