// Codes as they are printed.
ghost use Rattle.std.specs.Prelude.{Some};
ghost use Rattle.terms.specs.Lines.{codes_text};

use std::fmt;

// Displayed as decimal numbers, each behind a blank.
#[derive(Clone, Copy)]
pub struct Codes<'a>(pub &'a [u16]);

impl fmt::Display for Codes<'_> {
    ghost output = { λ list. Some (codes_text list.0.now) };

    fn fmt<W: fmt::Write>(&self, f: &mut fmt::Formatter<W>) -> fmt::Result {
        for code in self.0 {
            write!(f, " {code}")?;
        }
        Ok(())
    }
}
