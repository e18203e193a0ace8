// A symbol of a text: its name, and its arity once a use has fixed it.
use tokens::Name;

#[derive(Clone, Copy, PartialEq, Eq, Debug)]
pub struct Symbol {
    pub name: Name,
    pub arity: Option<u8>,
}
