// Questions of the parts: how a rule's sides compare, the height of a term, the ceiling at a size.
ghost use Rattle.std.specs.Prelude.{◌≡◌, Some};
ghost use Rattle.worked_parts.specs.Cases.{answered};
ghost use Rattle.worked_parts.specs.Views.{question_of};
ghost use Rattle.worked_parts.specs.Lines.{answer_text, question_text};

use crate::worked_part::{WorkedPart, part};
use algebras::{Algebra, AlgebraFault, Order};
use std::fmt;
use terms::Codes;
use worked::addition;

#[derive(Clone, Copy)]
pub enum Question {
    Order(WorkedPart, &'static [u16], &'static [u16]),
    Height(WorkedPart, &'static [u16]),
    Ceiling(WorkedPart, usize),
}

#[derive(Clone, Copy, PartialEq, Eq, Debug)]
pub enum Answer {
    Order(Result<Order, AlgebraFault>),
    Height(Result<u64, AlgebraFault>),
    Ceiling(Result<Option<u64>, AlgebraFault>),
}

impl Question {
    pub fn answer(&self) -> Answer
        ensures { result ≡ answered (question_of self.now) }
    {
        let system = addition();
        let signature = system.signature();
        match *self {
            Question::Order(which, left, right) => {
                let order = part(which).compare(signature, left, right);
                Answer::Order(order)
            }
            Question::Height(which, codes) => Answer::Height(part(which).measure(signature, codes)),
            Question::Ceiling(which, size) => Answer::Ceiling(part(which).ceiling(size)),
        }
    }
}

impl fmt::Display for Question {
    ghost output = { λ q. Some (question_text (question_of q)) };

    fn fmt<W: fmt::Write>(&self, f: &mut fmt::Formatter<W>) -> fmt::Result {
        match *self {
            Question::Order(which, left, right) => write!(
                f,
                "{which} compare{} ->{}",
                Codes(left),
                Codes(right)
            ),
            Question::Height(which, codes) => write!(f, "{which} measure{}", Codes(codes)),
            Question::Ceiling(which, size) => write!(f, "{which} ceiling {size}"),
        }
    }
}

impl fmt::Display for Answer {
    ghost output = { λ a. Some (answer_text a) };

    fn fmt<W: fmt::Write>(&self, f: &mut fmt::Formatter<W>) -> fmt::Result {
        match self {
            Answer::Order(Ok(order)) => order.fmt(f),
            Answer::Height(Ok(height)) => height.fmt(f),
            Answer::Ceiling(Ok(Some(most))) => most.fmt(f),
            Answer::Ceiling(Ok(None)) => f.write_str("none"),
            Answer::Order(Err(fault)) | Answer::Height(Err(fault)) | Answer::Ceiling(Err(fault)) =>
                fault.fmt(f),
        }
    }
}
