// A term as far as it is read.

// A use of a symbol whose last token is still to come, with the number of arguments begun.
#[derive(Clone, Copy, PartialEq, Eq, Debug)]
pub struct Use {
    pub symbol: u16,
    pub begun: u8,
}

// What comes next: a term, the bracket of a use, no bracket (behind a variable), or what may follow a whole term.
#[derive(Clone, Copy, PartialEq, Eq, Debug)]
pub enum Await {
    Term,
    Bracket,
    NoBracket,
    After,
}

// The two blocks of a rule text.
#[derive(Clone, Copy, PartialEq, Eq, Debug)]
pub enum Block {
    Variables,
    Rules,
}
