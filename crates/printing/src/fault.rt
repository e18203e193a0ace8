// Why a term is not printed.
ghost use Rattle.std.specs.Prelude.{◌≡◌, Some};
ghost use Rattle.refusals.specs.Lines.{line};
ghost use Rattle.printing.specs.Replies.{print_refusal};

use refusals::{Layer, Refusal};
use std::fmt;

#[derive(Clone, Copy, PartialEq, Eq, Debug)]
pub enum PrintFault {
    // Codes that are no term over the names.
    NoTerm,
    // Memory that is shorter than the text.
    TooShort,
}

impl From<PrintFault> for Refusal {
    ghost from_gives = { λ fault refusal. refusal ≡ print_refusal fault };

    fn from(fault: PrintFault) -> Refusal {
        let number = match fault {
            PrintFault::NoTerm => 36,
            PrintFault::TooShort => 23,
        };
        Refusal {
            number,
            layer: Layer::Term,
            place: 0,
        }
    }
}

impl fmt::Display for PrintFault {
    ghost output = { λ fault. Some (line (print_refusal fault)) };

    fn fmt<W: fmt::Write>(&self, f: &mut fmt::Formatter<W>) -> fmt::Result {
        Refusal::from(*self).fmt(f)
    }
}
