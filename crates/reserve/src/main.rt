// Reads a rule text, a certificate and a start term from the current folder, reserves the term's height from the largest
// pool, opens a job in full, sweeps for the reserve, settles, and prints a record. A refusal prints only its line.
#![tactic(auto)]

mod record;
mod strictness;

use folders::read_folder;
use hosting::{HostFault, host};
use jobs::{Inputs, OpenFault};
use pools::{MOST_STEPS, Pool};
use record::Record;
use std::io;

// Everything is read before anything is reserved, and everything is settled before anything is printed.
fn reserve(inputs: Result<Inputs, OpenFault>) -> Result<Record, HostFault> {
    let inputs = inputs?;
    let pile = inputs.certificate.pile();
    let mut pool = Pool::new(MOST_STEPS, 1)?;
    let hosted = host(&mut pool, inputs.system, &pile, inputs.term.as_slice())?;
    Ok(Record { inputs, hosted })
}

fn main(rt: HostRuntime) -> io::Result<()> {
    match reserve(read_folder(&rt)?) {
        Ok(record) => record.print(&rt),
        Err(fault) => println!(rt; "{fault}"),
    }
}
