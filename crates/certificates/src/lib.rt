// Certificates: bytes, read in place, record by record, into the parts of a pile. That they are accepted exactly if they are
// how parts are written stands on `read_certificate`.
#![tactic(auto)]

mod body;
pub mod certificate;
mod reader;
mod records;
mod values;

pub use certificate::{Certificate, read_certificate};
pub use encodings::{CertificateFault, RecordFlaw};

#[cfg(test)]
mod tests {
    use super::*;
    use piles::Part;
    use std::test::Fail;
    use terms::Signature;

    // A linear and a matrix part for unary addition: its symbols are add, z and s.
    const WORKED: [u8; 39] = [
        2, 0, 1, 0, 2, 3, 6, 0, 16, 0, 1, 1, 1, 0, 0, 1, 19, 0, 17, 0, 2, 0, 0, 1, 1, 0, 1, 1, 0,
        0, 1, 0, 0, 0, 1, 1, 0, 0, 1,
    ];

    #[test]
    fn reads_a_linear_and_a_matrix_part(rt: HostRuntime) -> Result<(), Fail> {
        let signature = Signature::new(&[2, 0, 1])?;
        let certificate = read_certificate(&signature, &WORKED)?;
        let parts = certificate.parts();
        assert!(rt; parts.len() == 2);
        let Part::Linear(linear) = parts[0] else {
            return Err(Fail::new("no linear part"));
        };
        assert!(rt; linear.symbols()[0].factors == [1, 1, 0, 0]);
        let Part::Matrix(matrix) = parts[1] else {
            return Err(Fail::new("no matrix part"));
        };
        assert!(rt; matrix.dimension() == 2);
        assert!(rt; matrix.symbols()[2].constant == [0, 1, 0, 0]);
        Ok(())
    }

    #[test]
    fn refuses_at_a_byte(rt: HostRuntime) -> Result<(), Fail> {
        let signature = Signature::new(&[2, 0, 1])?;
        let Err(fault) = read_certificate(&signature, &WORKED[..38]) else {
            return Err(Fail::new("accepted"));
        };
        assert!(rt; fault.to_string(rt.alloc())?.as_str() == "refused 11 certificate 16");
        Ok(())
    }
}
