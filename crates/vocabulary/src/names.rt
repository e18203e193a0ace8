// The names of a system: a vocabulary whose arities are all fixed, with the signature that they make.
ghost use Rattle.std.specs.Prelude.{T};
ghost use Rattle.terms.specs.Models.{arities_of};
ghost use Rattle.vocabulary.specs.Vocabularies.{are_fixed};
ghost use Rattle.vocabulary.specs.Models.{vocabulary_of};

use crate::vocabulary::Vocabulary;
use terms::Signature;

mod calls;

#[derive(Clone, Copy)]
pub struct Names {
    vocabulary: Vocabulary,
    signature: Signature,
    ghost fixed: { T (are_fixed (vocabulary_of vocabulary).arities (arities_of signature)) },
}
