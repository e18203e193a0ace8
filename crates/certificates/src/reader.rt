// A certificate as far as it is read, in place.
ghost use Rattle.std.specs.Prelude.{◌≤◌, All, length};
ghost use Rattle.encodings.specs.Numbers.{IsByte};

use bounded::ArrayVec;
use piles::Part;
use terms::Signature;

mod calls;

// What is awaited: the header, a part with this many behind it, or the end.
#[derive(Clone, Copy)]
pub(crate) enum Awaits {
    Header,
    Part(u8),
    End,
}

#[derive(Clone, Copy)]
pub(crate) struct Reader<'a> {
    pub signature: Signature,
    pub bytes: &'a [u8],
    pub at: usize,
    pub awaits: Awaits,
    pub parts: ArrayVec<Part, 4>,
    ghost within: { at ≤ length bytes.now },
    ghost small: { All IsByte bytes.now },
}
