// Linear and matrix parts: interpretations of a signature by numbers and by vectors, checked when they are made. That they
// keep the five laws is the law of their `impl Algebra`.
#![tactic(auto)]

pub mod linear;
pub mod matrix;
mod symbols;

pub use linear::{LinearPart, LinearSymbol};
pub use matrix::{Matrix, MatrixPart, MatrixSymbol};
