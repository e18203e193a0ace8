// The numbers of a certificate's parts: a line for each symbol, its constant before its arguments'.
use certificates::Certificate;
use parts::{LinearPart, LinearSymbol, Matrix, MatrixPart, MatrixSymbol};
use piles::Part;
use std::io;
use terms::Signature;

fn print_numbers(rt: &HostRuntime, numbers: &[u8], count: usize) -> io::Result<()> {
    for number in numbers.iter().take(count) {
        print!(rt; " {number}")?;
    }
    Ok(())
}

fn print_linear_symbol(rt: &HostRuntime, symbol: &LinearSymbol, arity: usize) -> io::Result<()> {
    print!(rt; "  {}:", symbol.constant)?;
    print_numbers(rt, &symbol.factors, arity)?;
    println!(rt; "")
}

fn print_linear(rt: &HostRuntime, signature: &Signature, part: &LinearPart) -> io::Result<()> {
    println!(rt; " linear")?;
    for (symbol, arity) in part.symbols().iter().zip(signature.arities()) {
        print_linear_symbol(rt, symbol, *arity as usize)?;
    }
    Ok(())
}

// Its rows one behind the other.
fn print_rows(rt: &HostRuntime, matrix: &Matrix, dimension: usize) -> io::Result<()> {
    for row in matrix.rows.iter().take(dimension) {
        print_numbers(rt, row, dimension)?;
    }
    Ok(())
}

fn print_matrices(
    rt: &HostRuntime,
    matrices: &[Matrix],
    dimension: usize,
    arity: usize,
) -> io::Result<()> {
    for matrix in matrices.iter().take(arity) {
        print!(rt; ":")?;
        print_rows(rt, matrix, dimension)?;
    }
    println!(rt; "")
}

fn print_matrix_symbol(
    rt: &HostRuntime,
    symbol: &MatrixSymbol,
    dimension: usize,
    arity: usize,
) -> io::Result<()> {
    print!(rt; " ")?;
    print_numbers(rt, &symbol.constant, dimension)?;
    print_matrices(rt, &symbol.matrices, dimension, arity)
}

fn print_matrix(rt: &HostRuntime, signature: &Signature, part: &MatrixPart) -> io::Result<()> {
    println!(rt; " matrix {}", part.dimension())?;
    for (symbol, arity) in part.symbols().iter().zip(signature.arities()) {
        print_matrix_symbol(rt, symbol, part.dimension(), *arity as usize)?;
    }
    Ok(())
}

pub fn print_parts(
    rt: &HostRuntime,
    signature: &Signature,
    certificate: &Certificate,
) -> io::Result<()> {
    println!(rt; "parts {}", certificate.parts().len())?;
    for part in certificate.parts() {
        match part {
            Part::Linear(part) => print_linear(rt, signature, part)?,
            Part::Matrix(part) => print_matrix(rt, signature, part)?,
            Part::Missing(_) => println!(rt; " missing")?,
        }
    }
    Ok(())
}
