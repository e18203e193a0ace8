// A record's body, read in place.
ghost use Rattle.std.specs.Prelude.{◌≡◌};
ghost use Rattle.encodings.specs.Bodies.{byte, ranged, positive, sized};
ghost use Rattle.encodings.specs.declared.flaw.RecordFlaw.TheVariants.{WrongLength};
ghost use Rattle.certificates.specs.Bodies.{body_of, taken, sized_as};

use encodings::{CertificateFault, RecordFlaw};

// Where its record starts, the offset of the next byte, and the certificate up to the body's end.
#[derive(Clone, Copy)]
pub(crate) struct Body<'a> {
    pub start: usize,
    pub at: usize,
    pub bytes: &'a [u8],
}

impl<'a> Body<'a> {
    // One byte; where there is none the body is too short.
    pub fn byte(&mut self) -> Result<u8, CertificateFault>
        ensures { taken result (body_of self.new) ≡ byte (body_of self.old) }
    {
        let Some(byte) = self.bytes.get(self.at) else {
            return Err(self.wrong_length());
        };
        self.at += 1;
        Ok(*byte)
    }

    // A byte from a range.
    pub fn ranged(&mut self, low: u8, high: u8) -> Result<u8, CertificateFault>
        ensures { taken result (body_of self.new) ≡ ranged low high (body_of self.old) }
    {
        let offset = self.at;
        let value = self.byte()?;
        if !(low..=high).contains(&value) {
            return Err(RecordFlaw::OutOfRange.at(offset));
        }
        Ok(value)
    }

    // As many bytes have to be left.
    pub fn check_size(&self, size: usize) -> Result<(), CertificateFault>
        ensures { sized_as (body_of self.now) result ≡ sized size (body_of self.now) }
    {
        if self.bytes.len().saturating_sub(self.at) != size {
            return Err(self.wrong_length());
        }
        Ok(())
    }

    fn wrong_length(&self) -> CertificateFault
        ensures { result ≡ record { flaw = WrongLength; offset = self.now.start } }
    {
        RecordFlaw::WrongLength.at(self.start)
    }
}
