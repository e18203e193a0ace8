// What a matrix part was given, as it was given.
ghost use Rattle.std.specs.Prelude.{◌≡◌};

use crate::matrix::{MatrixPart, MatrixSymbol};

impl MatrixPart {
    pub fn dimension(&self) -> usize
        ensures { result ≡ self.now.dimension }
    {
        self.dimension
    }

    pub fn symbols(&self) -> &[MatrixSymbol; 32]
        ensures { result.now ≡ self.now.symbols }
    {
        &self.symbols
    }
}
