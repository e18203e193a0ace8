// Names from bytes.
ghost use Rattle.std.specs.Prelude.{◌≡◌, [], ◌∷◌};
ghost use Rattle.std.specs.Option.{option_map};
ghost use Rattle.tokens.specs.Bytes.{letter, all_letters};
ghost use Rattle.tokens.specs.Names.{name_bytes, name_reply};

use crate::name::Name;
use bounded::ArrayVec;

pub(crate) fn is_letter(b: u8) -> bool
    ensures { result ≡ letter b }
{
    b.is_ascii_alphanumeric() || b == b'_' || b == b'\''
}

fn are_letters(bytes: &[u8]) -> bool
    ensures { result ≡ all_letters bytes.now }
{
    bytes.iter().all(|b| is_letter(*b))
}

impl Name {
    // None where the bytes are no name.
    pub fn new(bytes: &[u8]) -> Option<Name>
        ensures { option_map name_bytes result ≡ name_reply bytes.now }
    {
        if bytes.is_empty() || !are_letters(bytes) {
            return None;
        }
        let bytes = ArrayVec::from_slice(0, bytes).ok()?;
        Some(Name { bytes })
    }

    // The name _, for memory that holds no name yet.
    pub fn placeholder() -> Name
        ensures { name_bytes result ≡ 95 ∷ [] }
    {
        let bytes = ArrayVec::from_slice(0, b"_").unwrap();
        Name { bytes }
    }

    pub fn bytes(&self) -> &[u8]
        ensures { result.now ≡ name_bytes self.now }
    {
        self.bytes.as_slice()
    }
}
