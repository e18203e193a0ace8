// A text read token by token.
ghost use Rattle.std.specs.Prelude.{◌≡◌, cond};
ghost use Rattle.tokens.specs.Lexing.{word_of};
ghost use Rattle.vocabulary.specs.Models.{vocabulary_of};
ghost use Rattle.vocabulary.specs.declared.flaw.Flaw.TheVariants.{Misplaced};
ghost use Rattle.reading.specs.Documents.{Move.to, Move.flawed, rule_text, start_term, may_end};
ghost use Rattle.texts.specs.Documents.{document_of, moved, token_move};

use crate::document::Document;
use crate::parts::{Parts, Phase};
use reading::{Block, Role};
use tokens::Token;
use vocabulary::{Flaw, Vocabulary};

impl Document {
    pub(crate) fn rule_text() -> Document
        ensures { document_of result ≡ rule_text }
    {
        Document {
            parts: Parts::new(Vocabulary::new()),
            phase: Phase::Bracket(Block::Variables),
        }
    }

    // Over the names of a text.
    pub(crate) fn start_term(vocabulary: Vocabulary) -> Document
        ensures { document_of result ≡ start_term (vocabulary_of vocabulary) }
    {
        Document {
            parts: Parts::new(vocabulary),
            phase: Phase::Inside(Role::Start),
        }
    }

    // One token, where `bare` says that no bracket follows it. The text's end comes too early.
    pub(crate) fn step(&mut self, token: &Token, bare: bool) -> Result<(), Flaw>
        ensures { moved result (document_of self.new) ≡ token_move (document_of self.old) (word_of token.now) bare }
    {
        let answer = self.parts.step(&mut self.phase, token, bare);
        // Behind a refusal nothing is read.
        if answer.is_err() {
            self.phase = Phase::Closed;
        }
        answer
    }

    // The text's end, which may come too early.
    pub(crate) fn end(&self) -> Result<(), Flaw>
        ensures { moved result (document_of self.now) ≡ cond (may_end (document_of self.now).phase) (to (document_of self.now)) (flawed Misplaced) }
    {
        match self.phase {
            Phase::Closed | Phase::Ended => Ok(()),
            _ => Err(Flaw::Misplaced),
        }
    }
}
