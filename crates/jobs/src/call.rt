// A call on a job, by its arguments.
use pools::Grant;

#[derive(Clone, Copy)]
pub enum Call<'a> {
    // By a rule number at a place.
    Step(&'a Grant, usize, usize),
    // For up to so many steps.
    Sweep(&'a Grant, u64),
    Look,
    // To so many first places of the memory that is lent.
    CopyOut(usize),
}
