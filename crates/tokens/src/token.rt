// Tokens.
use crate::name::Name;

#[derive(Clone, Copy, PartialEq, Eq, Debug)]
pub enum Token {
    Open,
    Close,
    Comma,
    Arrow,
    Named(Name),
    // A name of more than 16 bytes.
    Long,
    // A byte that begins no token.
    Illegal,
    End,
}

// A token and the offset of its first byte; the end's is the text's length.
#[derive(Clone, Copy, PartialEq, Eq, Debug)]
pub struct Lexeme {
    pub at: usize,
    pub token: Token,
}
