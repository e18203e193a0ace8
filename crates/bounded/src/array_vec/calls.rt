// The calls. What is full refuses, and keeps what it holds.
ghost use Rattle.std.specs.Prelude.{◌≡◌, ◌<◌, [], ◌∷◌, length, is_ok, slice_get, slice_set, MatchResult};
ghost use Rattle.std.specs.Cmp.{on_per, on_equiv};
ghost use Rattle.std.specs.Cmp.Lexicographic.{pointwise, lists_per, lists_equiv};
ghost use Rattle.bounded.specs.Items.{items, room, grown, Popped};

use crate::array_vec::{ArrayVec, Full};
use std::fmt;

#[tactic(auto, unfolding(crate::specs::Items::items))]
impl<T: Copy, const N: usize> ArrayVec<T, N> {
    // No items; `fill` is what the unused slots hold.
    pub fn new(fill: T) -> Self
        ensures { items result ≡ [] }
    {
        ArrayVec {
            slots: [fill; N],
            len: 0,
        }
    }

    // The items of a slice, if there is room for all.
    pub fn from_slice(fill: T, source: &[T]) -> Result<Self, Full>
        ensures { MatchResult result (λ v. items v ≡ source.now) (λ _. N < length source.now) }
    {
        let mut vec = ArrayVec::new(fill);
        vec.extend(source)?;
        Ok(vec)
    }

    pub fn as_slice(&self) -> &[T]
        ensures { result.now ≡ items self.now }
    {
        &self.slots[..self.len]
    }

    // One item more.
    pub fn push(&mut self, item: T) -> Result<(), Full>
        ensures fits { is_ok result ≡ room N (items self.old) (item ∷ []) }
        ensures items { items self.new ≡ grown (is_ok result) (items self.old) (item ∷ []) }
    {
        let at = self.len;
        if at >= N {
            return Err(Full {});
        }
        self.slots[at] = item;
        self.len = at + 1;
        Ok(())
    }

    // All of them, or none where there is no room for all.
    pub fn extend(&mut self, more: &[T]) -> Result<(), Full>
        ensures fits { is_ok result ≡ room N (items self.old) more.now }
        ensures items { items self.new ≡ grown (is_ok result) (items self.old) more.now }
    {
        let start = self.len;
        if more.len() > N - start {
            return Err(Full {});
        }
        let end = start + more.len();
        let slots = &mut self.slots[..];
        slots[start..end].copy_from_slice(more);
        self.len = end;
        Ok(())
    }

    // The last item, taken off.
    pub fn pop(&mut self) -> Option<T>
        ensures { Popped (items self.old) result (items self.new) }
    {
        self.len = self.len.checked_sub(1)?;
        Some(self.slots[self.len])
    }

    // Another item at a place, and the one that stood there; none where there is no such place.
    pub fn set(&mut self, place: usize, item: T) -> Option<T>
        ensures was { result ≡ slice_get (items self.old) place }
        ensures items { items self.new ≡ slice_set (items self.old) place item }
    {
        let was = *self.as_slice().get(place)?;
        self.slots[place] = item;
        Some(was)
    }

    pub fn clear(&mut self)
        ensures { items self.new ≡ [] }
    {
        self.len = 0;
    }
}

// By the items alone: what unused slots hold doesn't count.
impl<T: PartialEq + Copy, const N: usize> PartialEq for ArrayVec<T, N> {
    ghost eq = { λ v w. pointwise T.eq (items v) (items w) };

    ghost laws = { on_per items (lists_per T.laws) };

    fn eq(&self, other: &Self) -> bool {
        self.as_slice() == other.as_slice()
    }
}

impl<T: Eq + Copy, const N: usize> Eq for ArrayVec<T, N> {
    ghost laws = { on_equiv items (lists_equiv T.Eq.laws) };
}

impl<T: fmt::Debug + Copy, const N: usize> fmt::Debug for ArrayVec<T, N> {
    fn fmt<W: fmt::Write>(&self, f: &mut fmt::Formatter<W>) -> fmt::Result {
        self.as_slice().fmt(f)
    }
}
