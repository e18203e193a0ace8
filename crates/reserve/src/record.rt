// The record of a trip, line by line.
use crate::strictness::strict_part;
use algebras::{Algebra, AlgebraFault};
use folders::Counts;
use hosting::Hosted;
use jobs::{End, Inputs};
use printing::NamedTerm;
use std::io;

#[derive(Drop)]
pub struct Record {
    pub inputs: Inputs,
    pub hosted: Hosted,
}

impl Record {
    pub fn print(&self, rt: &HostRuntime) -> io::Result<()> {
        self.print_system(rt)?;
        println!(rt; "height {}", self.hosted.height)?;
        self.print_ceiling(rt)?;
        println!(rt; "steps {}", self.hosted.sweep.steps)?;
        let term = NamedTerm {
            names: &self.inputs.names,
            codes: self.hosted.job.job().subject().codes(),
        };
        println!(rt; "term {term}")?;
        if self.hosted.sweep.end == End::TooLong {
            println!(rt; "ended {}", self.hosted.sweep.end)?;
        }
        Ok(())
    }

    // How many rules, symbols and parts there are, and for each rule the lowest part that alone is strict on it.
    fn print_system(&self, rt: &HostRuntime) -> io::Result<()> {
        println!(rt; "{}", Counts(&self.inputs))?;
        let signature = self.inputs.system.signature();
        let parts = self.inputs.certificate.parts();
        for (number, rule) in self.inputs.system.rules().iter().enumerate() {
            if let Some(part) = strict_part(parts, signature, rule) {
                println!(rt; "rule {number} part {part}")?;
            }
        }
        Ok(())
    }

    // Of all terms of the start term's size.
    fn print_ceiling(&self, rt: &HostRuntime) -> io::Result<()> {
        let size = self.inputs.term.as_slice().len();
        match self.inputs.certificate.pile().ceiling(size) {
            Ok(Some(most)) => println!(rt; "ceiling {most}"),
            Ok(None) => println!(rt; "ceiling none"),
            Err(AlgebraFault::CeilingOutOfReach) => println!(rt; "ceiling over"),
            Err(fault) => println!(rt; "{fault}"),
        }
    }
}
