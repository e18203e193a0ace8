// Why a text is refused.
ghost use Rattle.std.specs.Prelude.{◌≡◌, Some};
ghost use Rattle.refusals.specs.Lines.{line};
ghost use Rattle.texts.specs.Faults.{text_refusal};

use refusals::{Layer, Refusal};
use std::fmt;
use vocabulary::Flaw;

// Which of the two texts it is.
#[derive(Clone, Copy, PartialEq, Eq, Debug)]
pub enum Source {
    Rules,
    Term,
}

// What is wrong, and the offset of the token, or of the end, at which that is certain.
#[derive(Clone, Copy, PartialEq, Eq, Debug)]
pub struct TextFault {
    pub source: Source,
    pub flaw: Flaw,
    pub at: usize,
}

impl From<TextFault> for Refusal {
    ghost from_gives = { λ fault refusal. refusal ≡ text_refusal fault };

    fn from(fault: TextFault) -> Refusal {
        let layer = match fault.source {
            Source::Rules => Layer::Rules,
            Source::Term => Layer::Term,
        };
        Refusal {
            number: fault.flaw.number(),
            layer,
            place: fault.at,
        }
    }
}

impl fmt::Display for TextFault {
    ghost output = { λ fault. Some (line (text_refusal fault)) };

    fn fmt<W: fmt::Write>(&self, f: &mut fmt::Formatter<W>) -> fmt::Result {
        Refusal::from(*self).fmt(f)
    }
}
