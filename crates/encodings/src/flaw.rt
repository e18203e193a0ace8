// What can be wrong with the records of a certificate.
ghost use Rattle.std.specs.Prelude.{◌≡◌};
ghost use Rattle.encodings.specs.Flaws.{flaw_number};

#[derive(Clone, Copy, PartialEq, Eq, Debug)]
pub enum RecordFlaw {
    CutShort = 11,
    // Unknown, or out of turn.
    WrongKind = 12,
    WrongLength = 13,
    // A value, such as a factor 0.
    OutOfRange = 14,
    // Another number of symbols than the signature's.
    WrongSymbols = 15,
    // Bytes behind the last part.
    LeftOver = 16,
}

impl RecordFlaw {
    // The number of its refusal.
    pub fn number(&self) -> u16
        ensures { result ≡ flaw_number self.now }
    {
        *self as u16
    }
}
