// The parts of the worked cases, over addition.
ghost use Rattle.std.specs.Prelude.{◌≡◌, Some};
ghost use Rattle.terms.specs.Models.{arities_of};
ghost use Rattle.piles.specs.Parts.{part_algebra};
ghost use Rattle.worked.specs.Cases.{addition};
ghost use Rattle.worked_parts.specs.Words.{part_word};
ghost use Rattle.worked_parts.specs.WorkedParts.{meaning};
ghost use Rattle.worked_parts.specs.declared.worked_part.WorkedPart.TheVariants.{First, Second, Powers};

use parts::{LinearPart, LinearSymbol, Matrix, MatrixPart, MatrixSymbol};
use piles::Part;
use std::fmt;
use terms::Signature;
use worked::addition;

// The first finds the first rule of addition strict, the second the other; powers are for heights near the reach.
#[derive(Clone, Copy)]
pub enum WorkedPart {
    First,
    Second,
    Powers,
}

impl fmt::Display for WorkedPart {
    ghost output = { λ which. Some (part_word which) };

    fn fmt<W: fmt::Write>(&self, f: &mut fmt::Formatter<W>) -> fmt::Result {
        f.write_str(match self {
            WorkedPart::First => "part 0",
            WorkedPart::Second => "part 1",
            WorkedPart::Powers => "powers",
        })
    }
}

fn signature() -> Signature
    ensures { arities_of result ≡ addition }
{
    let system = addition();
    *system.signature()
}

// A symbol that a part does not have, with nothing in front of its arguments.
const NO_NUMBER: LinearSymbol = LinearSymbol {
    constant: 0,
    factors: [0; 4],
};

const NO_MATRIX: Matrix = Matrix { rows: [[0; 4]; 4] };

const NO_VECTOR: MatrixSymbol = MatrixSymbol {
    constant: [0; 4],
    matrices: [NO_MATRIX; 4],
};

// It counts the add's of a term.
fn first() -> Part
    ensures { part_algebra result ≡ meaning First }
{
    let mut symbols = [NO_NUMBER; 32];
    symbols[0] = LinearSymbol {
        constant: 1,
        factors: [1, 1, 0, 0],
    };
    symbols[2] = LinearSymbol {
        constant: 0,
        factors: [1, 0, 0, 0],
    };
    Part::Linear(LinearPart::new(signature(), symbols).unwrap())
}

// s counts in the second entry; add takes both entries of its first argument into the first.
fn second() -> Part
    ensures { part_algebra result ≡ meaning Second }
{
    let mut symbols = [NO_VECTOR; 32];
    let sum = Matrix {
        rows: [[1, 1, 0, 0], [0, 1, 0, 0], [0; 4], [0; 4]],
    };
    let unit = Matrix {
        rows: [[1, 0, 0, 0], [0, 1, 0, 0], [0; 4], [0; 4]],
    };
    symbols[0] = MatrixSymbol {
        constant: [0; 4],
        matrices: [sum, unit, NO_MATRIX, NO_MATRIX],
    };
    symbols[2] = MatrixSymbol {
        constant: [0, 1, 0, 0],
        matrices: [unit, NO_MATRIX, NO_MATRIX, NO_MATRIX],
    };
    Part::Matrix(MatrixPart::new(signature(), 2, symbols).unwrap())
}

// z is 1, and s multiplies by 255.
fn powers() -> Part
    ensures { part_algebra result ≡ meaning Powers }
{
    let mut symbols = [NO_NUMBER; 32];
    symbols[0] = LinearSymbol {
        constant: 0,
        factors: [1, 1, 0, 0],
    };
    symbols[1] = LinearSymbol {
        constant: 1,
        factors: [0; 4],
    };
    symbols[2] = LinearSymbol {
        constant: 0,
        factors: [255, 0, 0, 0],
    };
    Part::Linear(LinearPart::new(signature(), symbols).unwrap())
}

pub fn part(which: WorkedPart) -> Part
    ensures { part_algebra result ≡ meaning which }
{
    match which {
        WorkedPart::First => first(),
        WorkedPart::Second => second(),
        WorkedPart::Powers => powers(),
    }
}
