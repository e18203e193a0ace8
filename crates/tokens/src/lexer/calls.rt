// Token by token.
ghost use Rattle.std.specs.Prelude.{◌≡◌, ◌<◌, ◌≤◌, T, length, Some};
ghost use Rattle.std.specs.List.{prefix_len};
ghost use Rattle.tokens.specs.Bytes.{blank, letter, all_letters};
ghost use Rattle.tokens.specs.Tokens.{tokens, name_or_long, mark};
ghost use Rattle.tokens.specs.Cuts.{Tokenized};
ghost use Rattle.tokens.specs.Lexing.{word_of, first_word, first_length, Pops};
ghost use Rattle.tokens.specs.Lexers.{rest_of, end_of};

use crate::lexer::Lexer;
use crate::name::{Name, is_letter};
use crate::token::{Lexeme, Token};

fn is_blank(b: u8) -> bool
    ensures { result ≡ blank b }
{
    matches!(b, b' ' | b'\t' | b'\r' | b'\n')
}

// How many blanks a text begins with.
fn blanks(text: &[u8]) -> usize
    ensures are { result ≡ prefix_len blank text.now }
    ensures within { result ≤ length text.now }
{
    text.iter().take_while(|b| is_blank(**b)).count()
}

// How many letters a text begins with.
fn letters(text: &[u8]) -> usize
    ensures { result ≡ prefix_len letter text.now }
{
    text.iter().take_while(|b| is_letter(**b)).count()
}

// A run of letters as a token.
fn name_token(letters: &[u8]) -> Token
    requires some { 0 < length letters.now }
    requires pure { T (all_letters letters.now) }
    ensures { word_of result ≡ Some (name_or_long letters.now) }
{
    match Name::new(letters) {
        Some(name) => Token::Named(name),
        None => Token::Long,
    }
}

fn mark_token(b: u8) -> Token
    ensures { word_of result ≡ Some (mark b) }
{
    match b {
        b'(' => Token::Open,
        b')' => Token::Close,
        b',' => Token::Comma,
        _ => Token::Illegal,
    }
}

// The token that a text begins with, and how many bytes it takes.
fn first_token(text: &[u8]) -> (Token, usize)
    ensures word { word_of result.0 ≡ first_word text.now }
    ensures takes { result.1 ≡ first_length text.now }
    ensures within { result.1 ≤ length text.now }
{
    let count = letters(text);
    if count > 0 {
        return (name_token(&text[..count]), count);
    }
    if text.starts_with(b"->") {
        return (Token::Arrow, 2);
    }
    match text.first() {
        Some(b) => (mark_token(*b), 1),
        None => (Token::End, 0),
    }
}

impl<'a> Lexer<'a> {
    pub fn new(text: &'a [u8]) -> Lexer<'a>
        ensures rest { rest_of result ≡ tokens text.now }
        ensures end { end_of result ≡ length text.now }
        ensures means { Tokenized text.now }
    {
        Lexer { text, pos: 0 }
    }

    // The next token; past the last one the end, again and again.
    pub fn next(&mut self) -> Lexeme
        ensures pops { Pops (rest_of self.old) (end_of self.old) result (rest_of self.new) }
        ensures end { end_of self.new ≡ end_of self.old }
    {
        let at = self.pos + blanks(&self.text[self.pos..]);
        let (token, length) = first_token(&self.text[at..]);
        self.pos = at + length;
        Lexeme { at, token }
    }
}
