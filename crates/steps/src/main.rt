// Follows a trip to its normal form and prints a record of it: rules and symbols, each step, the final codes.
#![tactic(auto)]

use rewriting::Subject;
use std::io;
use terms::{Codes, Malformed};
use trips::{End, Trip, follow_with};
use worked::addition;

// The trip add(s(s(z)), s(z)).
fn trip() -> Result<Subject, Malformed> {
    Subject::new(addition(), &[0, 2, 2, 1, 2, 1])
}

fn run(rt: &HostRuntime, mut subject: Subject) -> io::Result<()> {
    let rules = subject.system().rules().len();
    let symbols = subject.system().signature().arities().len();
    println!(rt; "rules {rules} symbols {symbols}")?;
    let Trip { end, steps } = follow_with(
        &mut subject,
        |place, rule| println!(rt; "step rule {rule} place {place}"),
    )?;
    println!(rt; "steps {steps}")?;
    if end != End::Normal {
        println!(rt; "ended {end}")?;
    }
    println!(rt; "codes{}", Codes(subject.codes()))
}

fn main(rt: HostRuntime) -> io::Result<()> {
    match trip() {
        Ok(subject) => run(&rt, subject),
        Err(fault) => println!(rt; "{fault}"),
    }
}
