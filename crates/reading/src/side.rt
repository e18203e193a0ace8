// A term as far as it is read.
ghost use Rattle.std.specs.Prelude.{◌≡◌, ◌≤◌, length};
ghost use Rattle.bounded.specs.Items.{items};

use crate::state::{Await, Use};
use bounded::ArrayVec;

mod calls;

// The codes so far, the uses whose last token is still to come, innermost last, and what comes next.
#[derive(Drop)]
pub struct Side {
    pub codes: ArrayVec<u16, 1024>,
    pub uses: ArrayVec<Use, 1024>,
    pub awaits: Await,
    ghost nested: { length (items uses) ≤ length (items codes) },
}
