// The tokens of rule texts and start terms: brackets, commas, arrows and names, each with its byte offset. That they are the one
// cut of a text stands on `Lexer::new` and `next`.
#![tactic(auto)]

pub mod lexer;
pub mod name;
pub mod token;

pub use lexer::Lexer;
pub use name::Name;
pub use token::{Lexeme, Token};
