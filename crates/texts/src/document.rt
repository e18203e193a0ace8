// A text as far as it is read.
ghost use Rattle.bounded.specs.Items.{items};
ghost use Rattle.vocabulary.specs.Models.{vocabulary_of};
ghost use Rattle.reading.specs.Holding.{Held, Held-prop};
ghost use Rattle.texts.specs.Parts.{rules_of, phase_of};

use crate::parts::{Parts, Phase};

mod calls;

// One document reads both: a start term is a text whose names are known.
#[derive(Drop)]
pub(crate) struct Document {
    pub parts: Parts,
    pub phase: Phase,
    ghost held: { Held (vocabulary_of parts.vocabulary) (rules_of (items parts.rules)) (phase_of phase parts.side) } by { Held-prop (vocabulary_of parts.vocabulary) (rules_of (items parts.rules)) (phase_of phase parts.side) },
}
