// What is made, told and reckoned of a matrix part.
ghost use Rattle.std.specs.Prelude.{◌≡◌, ◌*◌, ◌<◌, ◌≤◌, All, IfSome, min, [], refl, take, nat_lt, slice_index, slice_index_or, sum_by};
ghost use Rattle.std.specs.List.{zip};
ghost use Rattle.terms.specs.Models.{arities_of};
ghost use Rattle.algebras.specs.Meanings.{reach};
ghost use Rattle.interpretations.specs.Numbers.{every};
ghost use Rattle.parts.specs.Kinds.{matrix_part, matrix_row};
ghost use Rattle.parts.specs.Vectors.{vector, vector_columns, dotted};
ghost use Rattle.parts.specs.Views.{matrix_of};
ghost use Rattle.parts.specs.Making.{Made};
ghost use Rattle.parts.specs.Columned.{vector_faithful, zero_within, unit_within};
ghost use Rattle.parts.specs.MakingLemmas.{limited_from};

use crate::matrix::{MatrixPart, MatrixSymbol};
use crate::symbols::{all_symbols, base, dot};
use algebras::REACH;
use forms::Reckoning;
use std::array;
use terms::Signature;

impl MatrixSymbol {
    // Whether the top left entries of the matrices of as many arguments are positive.
    fn is_positive(&self, arity: u8) -> bool
        ensures { result ≡ every (min arity 4) (λ k. nat_lt 0 (slice_index (matrix_row self.now k 0) 0)) }
    {
        self.matrices
            .iter()
            .take(arity as usize)
            .all(|matrix| matrix.rows[0][0] > 0)
    }

    // One entry of the sum of the arguments, each times its matrix.
    fn weigh(&self, dimension: usize, row: usize, args: &[[u64; 4]]) -> u64
        requires narrow { dimension ≤ 4 }
        requires inside { row < 4 }
        requires small { All (λ arg. All (λ value. value ≤ reach) (take dimension arg)) args.now }
        ensures sum { result ≡ sum_by (λ p. dotted (slice_index_or p.0.rows row []) (take dimension p.1)) (zip self.now.matrices args.now) }
        ensures bound { result ≤ 4080 * reach }
    {
        let mut sum = 0;
        for (matrix, arg) in self.matrices.iter().zip(args) {
            sum += dot(&matrix.rows[row], &arg[..dimension]);
        }
        sum
    }
}

impl MatrixPart {
    // A constant vector for each symbol and a matrix for each argument, of a dimension of 1 to 4; what stands past the
    // dimension, the symbols and their arguments counts for nothing. None if some top left entry is 0.
    pub fn new(
        signature: Signature,
        dimension: usize,
        symbols: [MatrixSymbol; 32],
    ) -> Option<MatrixPart>
        ensures made { Made matrix_of (matrix_part (arities_of signature) dimension symbols) result }
        ensures kept { IfSome result (λ p. (p.signature ≡ signature) × (p.dimension ≡ dimension) × (p.symbols ≡ symbols)) }
    {
        if dimension == 0 || dimension > 4 {
            return None;
        }
        if !all_symbols(&signature, &symbols, MatrixSymbol::is_positive) {
            return None;
        }
        Some(MatrixPart {
            signature,
            dimension,
            symbols,
        })
    }
}

impl Reckoning for MatrixPart {
    type Vector = [u64; 4];

    ghost meaning = { matrix_of };

    ghost entry = { vector };

    ghost columns = { λ p. vector_columns (matrix_of p) };

    ghost faithful = { λ p. vector_faithful (matrix_of p) p.narrow };

    ghost limited = { λ p. limited_from p.signature (matrix_of p) refl p.some p.narrow };

    ghost zeros = { λ p. zero_within (matrix_of p) };

    ghost units = { λ p v k. unit_within (matrix_of p) p.narrow v k };

    fn signature(&self) -> &Signature {
        &self.signature
    }

    fn first(&self, vector: [u64; 4]) -> u64 {
        vector[0]
    }

    fn covers(&self, left: [u64; 4], right: [u64; 4]) -> bool {
        left.iter()
            .zip(&right)
            .take(self.dimension)
            .all(|(l, r)| r <= l)
    }

    fn zero(&self) -> [u64; 4] {
        [0; 4]
    }

    fn unit(&self, variable: usize, k: usize) -> [u64; 4] {
        array::from_fn(|i| u64::from(k == 4 * variable + 1 + i))
    }

    fn combine(&self, constant: bool, symbol: usize, args: &[[u64; 4]]) -> Option<[u64; 4]> {
        let symbol = &self.symbols[symbol];
        let mut value = [0; 4];
        for (row, entry) in value[..self.dimension].iter_mut().enumerate() {
            *entry = base(constant, symbol.constant[row]) + symbol.weigh(self.dimension, row, args);
            if *entry > REACH {
                return None;
            }
        }
        Some(value)
    }
}
