// A case that was run through the code, as a line.
ghost use Rattle.std.specs.Prelude.{◌≡◌};
ghost use Rattle.worked.specs.Lines.{verdict, report_text};

use std::fmt;

#[derive(Drop)]
pub struct Report<Q, A> {
    pub question: Q,
    pub answer: A,
    pub expected: A,
}

fn verdict(holds: bool) -> &'static str
    ensures { result.now ≡ verdict holds }
{
    if holds { "as expected" } else { "WRONG" }
}

// The question, the answer, and whether it is the expected one.
impl<Q: fmt::Display + Drop, A: fmt::Display + PartialEq + Drop> fmt::Display for Report<Q, A> {
    ghost output = { λ r. report_text (Q.output r.question) (A.output r.answer) (A.eq r.answer r.expected) };

    fn fmt<W: fmt::Write>(&self, f: &mut fmt::Formatter<W>) -> fmt::Result {
        let holds = self.answer == self.expected;
        write!(f, "{}: {}, {}", self.question, self.answer, verdict(holds))
    }
}
