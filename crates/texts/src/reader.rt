// A text read to its end.
ghost use Rattle.std.specs.Prelude.{◌≡◌};
ghost use Rattle.reading.specs.Outcomes.{outcome};
ghost use Rattle.texts.specs.Documents.{document_of};
ghost use Rattle.texts.specs.Readings.{Places, outcome_of};
ghost use Rattle.texts.specs.Faults.{FaultsIn};

use crate::document::Document;
use crate::fault::{Source, TextFault};
use tokens::{Lexer, Token};
use vocabulary::Flaw;

// A flaw, at its place in a text.
fn placed(answer: Result<(), Flaw>, source: Source, at: usize) -> Result<(), TextFault>
    ensures value { Places answer at result }
    ensures source { FaultsIn source result }
{
    answer.map_err(|flaw| TextFault { source, flaw, at })
}

// One token of lookahead tells whether a name has arguments.
pub(crate) fn read(document: &mut Document, source: Source, text: &[u8]) -> Result<(), TextFault>
    ensures value { outcome_of result (document_of document.new) ≡ outcome (document_of document.old) text.now }
    ensures source { FaultsIn source result }
{
    let mut lexer = Lexer::new(text);
    let mut current = lexer.next();
    while !matches!(current.token, Token::End) {
        let following = lexer.next();
        let bare = !matches!(following.token, Token::Open);
        placed(document.step(&current.token, bare), source, current.at)?;
        current = following;
    }
    placed(document.end(), source, current.at)
}
