// A matrix part: a symbol adds its constant vector to its arguments' vectors, each times a matrix.
ghost use Rattle.std.specs.Prelude.{◌<◌, ◌≤◌, T};
ghost use Rattle.terms.specs.Models.{arities_of};
ghost use Rattle.parts.specs.Kinds.{matrix_part, positive};

use terms::Signature;

pub mod algebra;
pub mod calls;
pub mod given;

// A square matrix, row by row; of a smaller dimension, its upper left corner.
#[derive(Clone, Copy)]
pub struct Matrix {
    pub rows: [[u8; 4]; 4],
}

// What a symbol adds, and the matrix of each argument.
#[derive(Clone, Copy)]
pub struct MatrixSymbol {
    pub constant: [u8; 4],
    pub matrices: [Matrix; 4],
}

#[derive(Clone, Copy)]
pub struct MatrixPart {
    signature: Signature,
    dimension: usize,
    symbols: [MatrixSymbol; 32],
    ghost some: { 0 < dimension },
    ghost narrow: { dimension ≤ 4 },
    ghost tops: { T (positive (matrix_part (arities_of signature) dimension symbols)) },
}
