// A name: 1 to 16 letters, digits, underscores and apostrophes, kept as written.
ghost use Rattle.std.specs.Prelude.{T};
ghost use Rattle.bounded.specs.Items.{items};
ghost use Rattle.tokens.specs.Bytes.{is_name};

use bounded::ArrayVec;

mod calls;

pub(crate) use calls::is_letter;

#[derive(Clone, Copy, PartialEq, Eq, Debug)]
pub struct Name {
    bytes: ArrayVec<u8, 16>,
    ghost spelled: { T (is_name (items bytes)) },
}
