// The one shape of every refusal: a number, the layer that refused, and a place.
// Each layer's own fault enum says by `From` which of these it stands for.
#![tactic(auto)]

ghost use Rattle.std.specs.Prelude.{◌≡◌, Some};
ghost use Rattle.refusals.specs.Lines.{layer_name, line, LinesTell};

use std::fmt;

// Where a refusal comes from, in the order in which a job passes the layers.
#[derive(Clone, Copy, PartialEq, Eq, Debug)]
pub enum Layer {
    Rules,
    Certificate,
    Term,
    Review,
    Job,
    Pool,
}

impl Layer {
    pub fn name(&self) -> &'static str
        ensures { result.now ≡ layer_name self.now }
    {
        match self {
            Layer::Rules => "rules",
            Layer::Certificate => "certificate",
            Layer::Term => "term",
            Layer::Review => "review",
            Layer::Job => "job",
            Layer::Pool => "pool",
        }
    }
}

impl fmt::Display for Layer {
    ghost output = { λ layer. Some (layer_name layer) };

    fn fmt<W: fmt::Write>(&self, f: &mut fmt::Formatter<W>) -> fmt::Result {
        f.write_str(self.name())
    }
}

// The place is a byte offset, a rule number or 0, as the number says.
#[derive(Clone, Copy, PartialEq, Eq, Debug)]
pub struct Refusal {
    pub number: u16,
    pub layer: Layer,
    pub place: usize,
}

impl fmt::Display for Refusal {
    ghost output = { λ r. Some (line r) };

    fn fmt<W: fmt::Write>(&self, f: &mut fmt::Formatter<W>) -> fmt::Result {
        let Refusal {
            number,
            layer,
            place,
        } = self;
        write!(f, "refused {number} {layer} {place}")
    }
}

// A printed line tells which refusal it stands for.
pub fn lines_tell()
    ensures { LinesTell }
{}

#[cfg(test)]
mod tests {
    use super::*;
    use std::test::Fail;

    #[test]
    fn prints_number_layer_and_place(rt: HostRuntime) -> Result<(), Fail> {
        let refusal = Refusal {
            number: 5,
            layer: Layer::Rules,
            place: 16,
        };
        let line = refusal.to_string(rt.alloc())?;
        assert!(rt; line.as_str() == "refused 5 rules 16");
        Ok(())
    }
}
