// A client of pools and jobs by hand: it reserves a term's height, opens a job in full, looks, steps at the redex that is
// shown, sweeps for its grant's amount, copies the codes out, and settles.
#![tactic(auto)]

mod by_hand;
mod in_slot;
mod work;

use by_hand::run_by_hand;
use hosting::HostFault;
use in_slot::run_in_slot;
use pools::Pool;
use std::io;
use work::Outcome;

// add(s(s(z)), s(z)).
const START: [u16; 6] = [0, 2, 2, 1, 2, 1];

fn print_outcome(rt: &HostRuntime, outcome: &Outcome) -> io::Result<()> {
    match outcome.first {
        Some((place, rule)) => println!(rt; "stepped by rule {rule} at place {place}")?,
        None => println!(rt; "no redex")?,
    }
    println!(rt;
        "swept {} steps, {}",
        outcome.sweep.steps, outcome.sweep.end
    )?;
    print!(rt; "codes")?;
    for code in outcome.codes.iter().take(outcome.copied) {
        print!(rt; " {code}")?;
    }
    println!(rt; "")
}

fn print_answer(rt: &HostRuntime, answer: Result<Outcome, HostFault>) -> io::Result<()> {
    match answer {
        Ok(outcome) => print_outcome(rt, &outcome),
        Err(fault) => println!(rt; "{fault}"),
    }
}

fn run(rt: &HostRuntime, mut pool: Pool) -> io::Result<()> {
    println!(rt; "by hand")?;
    print_answer(rt, run_by_hand(&mut pool, &START))?;
    println!(rt; "in a slot")?;
    print_answer(rt, run_in_slot(&mut pool, &START))?;
    println!(rt; "free {} of {}", pool.free(), pool.size())
}

fn main(rt: HostRuntime) -> io::Result<()> {
    match Pool::new(1_000, 1) {
        Ok(pool) => run(&rt, pool),
        Err(fault) => println!(rt; "{fault}"),
    }
}
