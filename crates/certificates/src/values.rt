// The values of a body: numbers, in tables of fixed size.
ghost use Rattle.std.specs.Prelude.{◌≡◌, ◌≤◌};
ghost use Rattle.terms.specs.Models.{arities_of};
ghost use Rattle.encodings.specs.Bodies.{mapped, byte, positive, times, each, linear_symbol, row, square, matrix_symbol};
ghost use Rattle.certificates.specs.Bodies.{body_of, taken};
ghost use Rattle.certificates.specs.Tables.{in_four, rows_table, matrices_table, linear_table, matrix_table, symbol_table, linear_tables, symbol_tables};

use crate::body::Body;
use encodings::CertificateFault;
use parts::{LinearSymbol, Matrix, MatrixSymbol};
use terms::Signature;

impl<'a> Body<'a> {
    // A factor for each argument, none of them 0.
    fn factors(&mut self, arity: usize) -> Result<[u8; 4], CertificateFault>
        requires { arity ≤ 4 }
        ensures { taken result (body_of self.new) ≡ mapped in_four (times positive arity (body_of self.old)) }
    {
        let mut factors = [0; 4];
        for factor in &mut factors[..arity] {
            *factor = self.ranged(1, u8::MAX)?;
        }
        Ok(factors)
    }

    // A constant, and a factor for each argument.
    fn linear_symbol(&mut self, arity: usize) -> Result<LinearSymbol, CertificateFault>
        requires { arity ≤ 4 }
        ensures { taken result (body_of self.new) ≡ mapped linear_table (linear_symbol arity (body_of self.old)) }
    {
        let constant = self.byte()?;
        let factors = self.factors(arity)?;
        Ok(LinearSymbol { constant, factors })
    }

    // As many bytes as the dimension says.
    fn row(&mut self, dimension: usize) -> Result<[u8; 4], CertificateFault>
        requires { dimension ≤ 4 }
        ensures { taken result (body_of self.new) ≡ mapped in_four (row dimension (body_of self.old)) }
    {
        let mut row = [0; 4];
        for entry in &mut row[..dimension] {
            *entry = self.byte()?;
        }
        Ok(row)
    }

    // As many rows.
    fn rows(&mut self, dimension: usize) -> Result<[[u8; 4]; 4], CertificateFault>
        requires { dimension ≤ 4 }
        ensures { taken result (body_of self.new) ≡ mapped rows_table (times (row dimension) dimension (body_of self.old)) }
    {
        let mut rows = [[0; 4]; 4];
        for row in &mut rows[..dimension] {
            *row = self.row(dimension)?;
        }
        Ok(rows)
    }

    // A matrix row by row. Its top left entry comes first, and is not 0.
    fn matrix(&mut self, dimension: usize) -> Result<Matrix, CertificateFault>
        requires { dimension ≤ 4 }
        ensures { taken result (body_of self.new) ≡ mapped matrix_table (square dimension (body_of self.old)) }
    {
        let mut ahead = *self;
        ahead.ranged(1, u8::MAX)?;
        let rows = self.rows(dimension)?;
        Ok(Matrix { rows })
    }

    // A matrix for each argument.
    fn matrices(&mut self, dimension: usize, arity: usize) -> Result<[Matrix; 4], CertificateFault>
        requires narrow { dimension ≤ 4 }
        requires few { arity ≤ 4 }
        ensures { taken result (body_of self.new) ≡ mapped matrices_table (times (square dimension) arity (body_of self.old)) }
    {
        let mut matrices = [Matrix { rows: [[0; 4]; 4] }; 4];
        for matrix in &mut matrices[..arity] {
            *matrix = self.matrix(dimension)?;
        }
        Ok(matrices)
    }

    // A constant vector, and a matrix for each argument.
    fn matrix_symbol(
        &mut self,
        dimension: usize,
        arity: usize,
    ) -> Result<MatrixSymbol, CertificateFault>
        requires narrow { dimension ≤ 4 }
        requires few { arity ≤ 4 }
        ensures { taken result (body_of self.new) ≡ mapped symbol_table (matrix_symbol dimension arity (body_of self.old)) }
    {
        let constant = self.row(dimension)?;
        let matrices = self.matrices(dimension, arity)?;
        Ok(MatrixSymbol { constant, matrices })
    }

    // What a linear part says of each symbol.
    pub fn linear_symbols(
        &mut self,
        signature: &Signature,
    ) -> Result<[LinearSymbol; 32], CertificateFault>
        ensures { taken result (body_of self.new) ≡ mapped linear_tables (each linear_symbol (arities_of signature.now) (body_of self.old)) }
    {
        let mut symbols = [LinearSymbol {
            constant: 0,
            factors: [0; 4],
        }; 32];
        for (symbol, arity) in signature.arities().iter().enumerate() {
            symbols[symbol] = self.linear_symbol(*arity as usize)?;
        }
        Ok(symbols)
    }

    // What a matrix part says of each symbol.
    pub fn matrix_symbols(
        &mut self,
        dimension: usize,
        signature: &Signature,
    ) -> Result<[MatrixSymbol; 32], CertificateFault>
        requires { dimension ≤ 4 }
        ensures { taken result (body_of self.new) ≡ mapped symbol_tables (each (matrix_symbol dimension) (arities_of signature.now) (body_of self.old)) }
    {
        let mut symbols = [MatrixSymbol {
            constant: [0; 4],
            matrices: [Matrix { rows: [[0; 4]; 4] }; 4],
        }; 32];
        for (symbol, arity) in signature.arities().iter().enumerate() {
            symbols[symbol] = self.matrix_symbol(dimension, *arity as usize)?;
        }
        Ok(symbols)
    }
}
