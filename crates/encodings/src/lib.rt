// What a certificate says as bytes: how parts are written, how bytes are read, and that the two fit. The reader itself is
// a crate above.
#![tactic(auto)]

ghost use Rattle.encodings.specs.Laws.{EveryCertificateExactly};

pub mod fault;
pub mod flaw;

pub use fault::CertificateFault;
pub use flaw::RecordFlaw;

// By its definition a certificate is read as parts exactly if it is how they are written.
pub fn certificates_are_read_as_written()
    ensures { EveryCertificateExactly }
{}
