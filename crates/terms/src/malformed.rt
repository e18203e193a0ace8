// What is no signature, no rule, no system or no term within the limits.
ghost use Rattle.std.specs.Prelude.{◌≡◌, Some};
ghost use Rattle.refusals.specs.Lines.{line};
ghost use Rattle.terms.specs.Replies.{malformed_refusal};

use refusals::{Layer, Refusal};
use std::fmt;

#[derive(Clone, Copy, PartialEq, Eq, Debug)]
pub enum Malformed {
    Signature,
    Rule,
    System,
    Term,
}

impl From<Malformed> for Refusal {
    ghost from_gives = { λ fault refusal. refusal ≡ malformed_refusal fault };

    fn from(_fault: Malformed) -> Refusal {
        Refusal {
            number: 36,
            layer: Layer::Review,
            place: 0,
        }
    }
}

impl fmt::Display for Malformed {
    ghost output = { λ fault. Some (line (malformed_refusal fault)) };

    fn fmt<W: fmt::Write>(&self, f: &mut fmt::Formatter<W>) -> fmt::Result {
        Refusal::from(*self).fmt(f)
    }
}
