ghost use Rattle.std.specs.Prelude.{◌≡◌, ◌+◌, ◌-◌, ◌<◌, ◌≤◌, [], ◌∷◌, length, take, drop, if◌then◌else◌, nat_lt, slice_set, is_ok};
ghost use Rattle.evaluation.specs.Held.{held, room};

use super::Stack;
use bounded::Full;

impl<'a, T: Copy> Stack<'a, T> {
    pub fn over(slots: &'a mut [T]) -> Stack<'a, T>
        ensures empty { held result ≡ [] }
        ensures free { room result ≡ length slots.old }
        ensures lender { result.slots.ghost_name ≡ slots.entry.ghost_name }
        ensures memory { result.slots.now ≡ slots.old }
    {
        let at = slots.len();
        Stack { slots, at }
    }

    // One entry more; where no memory is left nothing changes.
    pub fn push(&mut self, value: T) -> Result<(), Full>
        ensures done { is_ok result ≡ nat_lt 0 (room self.old) }
        ensures after { held self.new ≡ (if is_ok result then value ∷ held self.old else held self.old) }
        ensures free { room self.new ≡ room self.old - 1 }
        ensures lender { self.new.slots.ghost_name ≡ self.old.slots.ghost_name }
        ensures memory { self.new.slots.now ≡ (if is_ok result then slice_set self.old.slots.now (room self.old - 1) value else self.old.slots.now) }
    {
        let at = self.at.checked_sub(1).ok_or(Full {})?;
        self.slots[at] = value;
        self.at = at;
        Ok(())
    }

    pub fn len(&self) -> usize
        ensures { result ≡ length (held self.now) }
    {
        self.slots.len() - self.at
    }

    // The newest `count` entries, the newest first.
    pub fn top(&self, count: usize) -> &[T]
        requires { count ≤ length (held self.now) }
        ensures { result.now ≡ take count (held self.now) }
    {
        let end = self.at + count;
        &self.slots[self.at..end]
    }

    // Lets the newest `count` entries go.
    pub fn release(&mut self, count: usize)
        requires { count ≤ length (held self.old) }
        ensures after { held self.new ≡ drop count (held self.old) }
        ensures free { room self.new ≡ room self.old + count }
        ensures lender { self.new.slots.ghost_name ≡ self.old.slots.ghost_name }
        ensures memory { self.new.slots.now ≡ self.old.slots.now }
    {
        self.at += count;
    }
}
