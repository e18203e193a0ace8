// An algebra of one's own, plugged into the interface: asked, summed and reviewed like any other.
#![tactic(auto)]

mod uncapped;
mod wide;

use algebras::{Algebra, Empty, Sum, review};
use std::io;
use uncapped::Uncapped;
use wide::Widest;
use worked::addition;

fn print_ceiling<A: Algebra>(
    rt: &HostRuntime,
    name: &str,
    algebra: &A,
    size: usize,
) -> io::Result<()> {
    match algebra.ceiling(size) {
        Ok(Some(ceiling)) => println!(rt; "{name}: ceiling {ceiling}"),
        Ok(None) => println!(rt; "{name}: ceiling none"),
        Err(fault) => println!(rt; "{name}: {fault}"),
    }
}

fn print_review<A: Algebra>(rt: &HostRuntime, name: &str, algebra: &A) -> io::Result<()> {
    match review(algebra, &addition()) {
        Ok(()) => println!(rt; "{name}: every rule is strict"),
        Err(fault) => println!(rt; "{name}: {fault}"),
    }
}

fn main(rt: HostRuntime) -> io::Result<()> {
    let plain = Empty {};
    let uncapped = Uncapped { below: plain };
    let sum = Sum {
        first: plain,
        second: uncapped,
    };
    print_ceiling(&rt, "empty", &plain, 6)?;
    print_ceiling(&rt, "uncapped", &uncapped, 6)?;
    print_ceiling(&rt, "sum", &sum, 6)?;
    print_ceiling(&rt, "sum", &sum, 0)?;
    print_ceiling(&rt, "sum", &sum, 1024)?;
    print_ceiling(&rt, "sum", &sum, 1025)?;
    let wide = Sum {
        first: plain,
        second: Widest {},
    };
    print_ceiling(&rt, "wide", &wide, 6)?;
    print_ceiling(&rt, "wide", &wide, 1025)?;
    print_review(&rt, "sum", &sum)
}
