// Entries that wait, over lent memory. It fills from the end of the memory to its start, so that what it holds is
// the rest of the memory from `at`, the newest entry first.
ghost use Rattle.std.specs.Prelude.{◌≤◌, length};

pub mod calls;

#[derive(Drop)]
pub struct Stack<'a, T> {
    slots: &'a mut [T],
    at: usize,
    ghost within: { at ≤ length slots.now },
}
