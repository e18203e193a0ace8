// A code tells a symbol from a variable by its range.
ghost use Rattle.std.specs.Prelude.{◌≡◌};
ghost use Rattle.terms.specs.Kinds.{code_kind};

use crate::FIRST_VARIABLE;

// What a code stands for: a symbol or a variable, each by its number.
#[derive(Clone, Copy, PartialEq, Eq, Debug)]
pub enum Code {
    Symbol(u16),
    Variable(u16),
}

impl From<u16> for Code {
    ghost from_gives = { λ code kind. kind ≡ code_kind code };

    fn from(code: u16) -> Code {
        if code < FIRST_VARIABLE {
            Code::Symbol(code)
        } else {
            Code::Variable(code - FIRST_VARIABLE)
        }
    }
}
