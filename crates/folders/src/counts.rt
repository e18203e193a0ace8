// How many rules, symbols and parts there are.
ghost use Rattle.std.specs.Prelude.{Some};
ghost use Rattle.jobs.specs.Reads.{inputs_of};
ghost use Rattle.folders.specs.Counts.{counts_text};

use jobs::Inputs;
use std::fmt;

#[derive(Clone, Copy)]
pub struct Counts<'a>(pub &'a Inputs);

impl fmt::Display for Counts<'_> {
    ghost output = { λ counts. Some (counts_text (inputs_of counts.0.now)) };

    fn fmt<W: fmt::Write>(&self, f: &mut fmt::Formatter<W>) -> fmt::Result {
        let system = &self.0.system;
        write!(
            f,
            "rules {} symbols {} parts {}",
            system.rules().len(),
            system.signature().arities().len(),
            self.0.certificate.parts().len(),
        )
    }
}
