// A token with one token of lookahead.
use tokens::Token;

// Without a bracket behind it, the use of a symbol is complete.
#[derive(Clone, Copy)]
pub struct Lookahead {
    pub token: Token,
    // Whether no bracket follows.
    pub bare: bool,
}
