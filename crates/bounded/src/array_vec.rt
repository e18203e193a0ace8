// The type: the first `len` of N slots are the items.
ghost use Rattle.std.specs.Prelude.{◌≡◌, ◌≤◌, length};

use std::alloc::AllocError;

mod calls;

pub struct ArrayVec<T, const N: usize> {
    slots: [T; N],
    len: usize,
    ghost whole: { length slots ≡ N },
    ghost within: { len ≤ N },
}

// By hand, since neither is derived for a generic struct with a ghost field.
impl<T: Copy, const N: usize> Copy for ArrayVec<T, N> {}

impl<T: Copy, const N: usize> Clone for ArrayVec<T, N> {
    ghost is_clone = { λ x y. x ≡ y };

    fn clone(&self) -> Result<Self, AllocError> {
        Ok(*self)
    }
}

// Why items are not added: there is no room for them.
#[derive(Clone, Copy, PartialEq, Eq, Debug)]
pub struct Full {}
