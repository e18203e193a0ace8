// Names from a vocabulary, and their parts.
ghost use Rattle.std.specs.Prelude.{◌≡◌, ◌≤◌, length};
ghost use Rattle.std.specs.Option.{option_map};
ghost use Rattle.bounded.specs.Items.{items};
ghost use Rattle.terms.specs.Models.{arities_of};
ghost use Rattle.vocabulary.specs.Vocabularies.{symbol_arities, fixed_arities};
ghost use Rattle.vocabulary.specs.Models.{vocabulary_of};
ghost use Rattle.vocabulary.specs.Naming.{naming_of, naming_reply};

use crate::names::Names;
use crate::symbol::Symbol;
use crate::vocabulary::Vocabulary;
use bounded::ArrayVec;
use terms::Signature;

// The arities, if every one is fixed.
fn fixed(symbols: &[Symbol]) -> Option<ArrayVec<u8, 32>>
    requires { length symbols.now ≤ 32 }
    ensures { option_map items result ≡ fixed_arities (symbol_arities symbols.now) }
{
    let mut numbers = ArrayVec::new(0);
    for symbol in symbols {
        numbers.push(symbol.arity?).unwrap();
    }
    Some(numbers)
}

impl Names {
    // None while a symbol's arity is not fixed.
    pub fn new(vocabulary: Vocabulary) -> Option<Names>
        ensures { option_map naming_of result ≡ naming_reply (vocabulary_of vocabulary) }
    {
        let numbers = fixed(vocabulary.symbols())?;
        let signature = Signature::new(numbers.as_slice()).unwrap();
        Some(Names {
            vocabulary,
            signature,
        })
    }

    pub fn vocabulary(&self) -> &Vocabulary
        ensures { vocabulary_of result.now ≡ (naming_of self.now).vocabulary }
    {
        &self.vocabulary
    }

    pub fn signature(&self) -> &Signature
        ensures { arities_of result.now ≡ (naming_of self.now).signature }
    {
        &self.signature
    }
}
