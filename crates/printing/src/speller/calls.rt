// Word by word.
ghost use Rattle.std.specs.Prelude.{◌≡◌};
ghost use Rattle.std.specs.Iterator.{YieldsFirstBy, item_count};
ghost use Rattle.std.specs.Option.{option_map};
ghost use Rattle.vocabulary.specs.Naming.{naming_of};
ghost use Rattle.printing.specs.Pieces.{piece_word};
ghost use Rattle.printing.specs.Spellers.{words_left};
ghost use Rattle.printing.specs.Replies.{words_reply};
ghost use Rattle.printing.specs.declared.speller.Wants.{Wants};

use crate::named_term::NamedTerm;
use crate::piece::Piece;
use crate::speller::{Speller, Wants};
use bounded::ArrayVec;

impl<'a> Speller<'a> {
    // None unless the codes are a term whose variables are declared.
    pub(crate) fn new(term: NamedTerm<'a>) -> Option<Speller<'a>>
        ensures { option_map words_left result ≡ words_reply (naming_of term.entry.names.now) term.entry.codes.now }
    {
        if !term.is_printable() {
            return None;
        }
        Some(Speller {
            names: term.names,
            codes: term.codes,
            pending: ArrayVec::new(0),
            wants: Wants::Code,
        })
    }

    // The name of the next code; a symbol with arguments awaits them.
    fn code(&mut self) -> Option<Piece>
        requires { self.old.wants ≡ Wants.Code }
        ensures { YieldsFirstBy piece_word words_left self.old result self.new }
    {
        let (code, rest) = self.codes.split_first()?;
        let name = self.names.vocabulary().name_of(*code)?;
        let arity = self.names.signature().arity(*code);
        self.codes = rest;
        if arity == 0 {
            self.wants = Wants::Settle;
        } else {
            self.pending.push(arity as u8).unwrap();
            self.wants = Wants::Bracket;
        }
        Some(Piece::Named(name))
    }

    // What stands behind a whole term: the bracket or the comma of the innermost symbol, or the next code.
    fn settle(&mut self) -> Option<Piece>
        requires { self.old.wants ≡ Wants.Settle }
        ensures { YieldsFirstBy piece_word words_left self.old result self.new }
    {
        match self.pending.pop() {
            None => {
                self.wants = Wants::Code;
                self.code()
            }
            Some(0 | 1) => Some(Piece::Close),
            Some(more) => {
                self.pending.push(more - 1).unwrap();
                self.wants = Wants::Code;
                Some(Piece::Comma)
            }
        }
    }
}

impl<'a> Iterator for Speller<'a> {
    type Item = Piece;

    ghost next_gives = { YieldsFirstBy piece_word words_left };

    ghost remaining = { item_count words_left };

    fn next(&mut self) -> Option<Piece> {
        match self.wants {
            Wants::Code => self.code(),
            Wants::Bracket => {
                self.wants = Wants::Code;
                Some(Piece::Open)
            }
            Wants::Settle => self.settle(),
        }
    }
}
