// A vocabulary: symbols and variables by number. No two names are the same, and no arity is too large.
ghost use Rattle.bounded.specs.Items.{items};
ghost use Rattle.vocabulary.specs.Vocabularies.{vocabulary, Consistent};

use crate::symbol::Symbol;
use bounded::ArrayVec;
use tokens::Name;

mod calls;

#[derive(Clone, Copy)]
pub struct Vocabulary {
    symbols: ArrayVec<Symbol, 32>,
    variables: ArrayVec<Name, 8>,
    ghost consistent: { Consistent (vocabulary (items symbols) (items variables)) },
}
