// A walk over codes that hands out the words they are printed as.
ghost use Rattle.std.specs.Prelude.{◌+◌, ◌≤◌, length};
ghost use Rattle.bounded.specs.Items.{items};

use bounded::ArrayVec;
use vocabulary::Names;

mod calls;

// What comes next: a code, the bracket of a symbol, or what follows a whole term.
#[derive(Clone, Copy)]
pub(crate) enum Wants {
    Code,
    Bracket,
    Settle,
}

#[derive(Clone, Copy)]
pub(crate) struct Speller<'a> {
    names: &'a Names,
    codes: &'a [u16],
    // How many arguments each symbol still awaits, innermost last.
    pending: ArrayVec<u8, 1024>,
    wants: Wants,
    // Each pending symbol is one of at most 1,024 codes.
    ghost room: { length (items pending) + length codes.now ≤ 1024 },
}
