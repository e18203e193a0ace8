// What a linear part was given, as it was given.
ghost use Rattle.std.specs.Prelude.{◌≡◌};

use crate::linear::{LinearPart, LinearSymbol};

impl LinearPart {
    pub fn symbols(&self) -> &[LinearSymbol; 32]
        ensures { result.now ≡ self.now.symbols }
    {
        &self.symbols
    }
}
