// A part as two interpretations: terms have heights' vectors as values, or linear forms.
ghost use Rattle.std.specs.Prelude.{◌≡◌, ◌<◌, ◌≤◌, length, take};
ghost use Rattle.forms.specs.Columns.{single, forms, width, column as columned};

use crate::reckoning::Reckoning;
use evaluation::Interpretation;
use std::array;
use terms::Signature;

// Variables are zero.
#[derive(Drop)]
pub struct Heights<'a, P> {
    pub part: &'a P,
}

impl<P: Reckoning> Interpretation for Heights<'_, P> {
    type Value = P::Vector;

    ghost arities = { λ s. (P.Reckoning.meaning s.part.now).sig };

    ghost structure = { λ s. single (P.Reckoning.columns s.part.now) };

    fn signature(&self) -> &Signature {
        self.part.signature()
    }

    fn variable(&self, _number: usize) -> P::Vector {
        self.part.zero()
    }

    fn apply(&self, symbol: usize, args: &[P::Vector]) -> Option<P::Vector> {
        self.part.combine(true, symbol, args)
    }
}

// How many columns a form has: the constant vector, and one for each coordinate of each variable.
pub const WIDTH: usize = 33;

pub type Form<V> = [V; WIDTH];

// Variables are themselves.
#[derive(Drop)]
pub struct Forms<'a, P> {
    pub part: &'a P,
}

// One column of each form.
fn gather<C: Copy>(zero: C, k: usize, args: &[Form<C>]) -> [C; 4]
    requires few { length args.now ≤ 4 }
    requires inside { k < width }
    ensures { take (length args.now) result ≡ columned zero k args.now }
{
    let mut column = [zero; 4];
    for (at, form) in args.iter().enumerate() {
        column[at] = form[k];
    }
    column
}

impl<P: Reckoning> Interpretation for Forms<'_, P> {
    type Value = Form<P::Vector>;

    ghost arities = { λ s. (P.Reckoning.meaning s.part.now).sig };

    ghost structure = { λ s. forms (P.Reckoning.columns s.part.now) };

    fn signature(&self) -> &Signature {
        self.part.signature()
    }

    fn variable(&self, number: usize) -> Form<P::Vector> {
        array::from_fn(|k| self.part.unit(number, k))
    }

    fn apply(&self, symbol: usize, args: &[Form<P::Vector>]) -> Option<Form<P::Vector>> {
        let zero = self.part.zero();
        let mut out = [zero; WIDTH];
        for (k, column) in out.iter_mut().enumerate() {
            let gathered = gather(zero, k, args);
            *column = self.part.combine(k == 0, symbol, &gathered[..args.len()])?;
        }
        Some(out)
    }
}
