// The first words of commands.
ghost use Rattle.std.specs.Prelude.{◌≡◌};
ghost use Rattle.commands.specs.Verbs.{verb_word, verb_of, opening_of};

use crate::command::Opening;

#[derive(Clone, Copy)]
pub enum Verb {
    Measure,
    Compare,
    Ceiling,
    Pool,
    Reserve,
    Settle,
    Free,
    Open,
    Step,
    Sweep,
    Look,
    Copy,
    Term,
    Help,
}

const VERBS: [Verb; 14] = [
    Verb::Measure,
    Verb::Compare,
    Verb::Ceiling,
    Verb::Pool,
    Verb::Reserve,
    Verb::Settle,
    Verb::Free,
    Verb::Open,
    Verb::Step,
    Verb::Sweep,
    Verb::Look,
    Verb::Copy,
    Verb::Term,
    Verb::Help,
];

impl Verb {
    fn word(self) -> &'static str
        ensures { result.now ≡ verb_word self }
    {
        match self {
            Verb::Measure => "measure",
            Verb::Compare => "compare",
            Verb::Ceiling => "ceiling",
            Verb::Pool => "pool",
            Verb::Reserve => "reserve",
            Verb::Settle => "settle",
            Verb::Free => "free",
            Verb::Open => "open",
            Verb::Step => "step",
            Verb::Sweep => "sweep",
            Verb::Look => "look",
            Verb::Copy => "copy",
            Verb::Term => "term",
            Verb::Help => "help",
        }
    }
}

// The verb that a word is.
pub fn find_verb(word: &[u8]) -> Option<Verb>
    ensures { result ≡ verb_of word.now }
{
    VERBS
        .iter()
        .find(|verb| verb.word().as_bytes() == word)
        .copied()
}

// The opening that a word is.
#[tactic(auto, unfolding(crate::specs::Verbs::opening_of))]
pub fn find_opening(word: &[u8]) -> Option<Opening>
    ensures { result ≡ opening_of word.now }
{
    match word {
        b"full" => Some(Opening::Full),
        b"short" => Some(Opening::Short),
        _ => None,
    }
}
