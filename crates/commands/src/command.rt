// What a planner asks at a console.

// Which opening is asked for.
#[derive(Clone, Copy, PartialEq, Eq, Debug)]
pub enum Opening {
    Full,
    Short,
}

// What is asked; a term stands as it is written.
#[derive(Clone, Copy, PartialEq, Eq, Debug)]
pub enum Command<'a> {
    // The height of the start term, or of a term that is written out.
    Measure(Option<&'a [u8]>),
    Compare(usize),
    Ceiling(usize),
    // A pool's size and its first grant's number.
    Pool(u64, u32),
    Reserve(u64),
    Settle(u32),
    Free,
    // With the grant of a number, on the start term or on one that is written out.
    Open(Opening, u32, Option<&'a [u8]>),
    // With the grant of a number, by a rule at a place.
    Step(u32, usize, usize),
    Sweep(u32, u64),
    Look,
    Copy(usize),
    Term,
    Help,
}
