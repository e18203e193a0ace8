// What a job is opened on, from its texts: rules, a certificate, a start term.
ghost use Rattle.std.specs.Prelude.{◌≡◌};
ghost use Rattle.terms.specs.Replies.{viewed};
ghost use Rattle.jobs.specs.Reads.{inputs_of, inputs_reply};
ghost use Rattle.jobs.specs.TextOpenings.{opened_as, open_reply};

use crate::fault::OpenFault;
use crate::full::Full;
use bounded::ArrayVec;
use certificates::{Certificate, read_certificate};
use pools::Grant;
use terms::System;
use texts::{read_rules, read_term};
use vocabulary::Names;

// The names are those that the term is printed with.
#[derive(Drop)]
pub struct Inputs {
    pub names: Names,
    pub system: System,
    pub certificate: Certificate,
    pub term: ArrayVec<u16, 1024>,
}

// The rule text is read first, the certificate under its signature, then the start term over its names.
pub fn read_inputs(rules: &[u8], certificate: &[u8], start: &[u8]) -> Result<Inputs, OpenFault>
    ensures { viewed inputs_of result ≡ inputs_reply rules.now certificate.now start.now }
{
    let text = read_rules(rules)?;
    let certificate = read_certificate(text.names.signature(), certificate)?;
    let term = read_term(&text.names, start)?;
    Ok(Inputs {
        names: text.names,
        system: text.system,
        certificate,
        term,
    })
}

// A job that was opened in full, with the names that its term is printed with.
#[derive(Drop)]
pub struct Opened {
    pub names: Names,
    pub job: Full,
}

// On the texts of a system, a pile and a term, which are read in this order.
pub fn open_texts(
    rules: &[u8],
    certificate: &[u8],
    start: &[u8],
    grant: &Grant,
) -> Result<Opened, OpenFault>
    ensures { viewed opened_as result ≡ open_reply rules.now certificate.now start.now grant.now }
{
    let inputs = read_inputs(rules, certificate, start)?;
    let pile = inputs.certificate.pile();
    let job = Full::open(inputs.system, &pile, inputs.term.as_slice(), grant)?;
    Ok(Opened {
        names: inputs.names,
        job,
    })
}
