// The words of a line, read from the left.
ghost use Rattle.std.specs.Prelude.{◌≡◌, ◌==◌, Option, Some, IfNone, [], option_map, option_copied, ◌^◌};
ghost use Rattle.std.specs.List.{position};
ghost use Rattle.commands.specs.Words.{parts, left, first, passed};
ghost use Rattle.commands.specs.Numerals.{numeral};
ghost use Rattle.commands.specs.Verbs.{verb_of, opening_of};
ghost use Rattle.commands.specs.Table.{term_of, optional_term};

use crate::command::Opening;
use crate::numeral::{read_number, read_short_number};
use crate::verb::{Verb, find_opening, find_verb};

// Where the first blank of a line is.
fn find_blank(line: &[u8]) -> Option<usize>
    ensures { result ≡ position (λ b. b == 32) line.now }
{
    line.iter().position(|byte| *byte == b' ')
}

// A term is any word; where two blanks meet there is none.
fn read_term(word: &[u8]) -> Option<&[u8]>
    ensures { option_copied result ≡ term_of word.now }
{
    if word.is_empty() { None } else { Some(word) }
}

// What is left of a line; there is nothing behind its last word.
#[derive(Drop)]
pub struct Words<'a> {
    rest: Option<&'a [u8]>,
}

impl<'a> Words<'a> {
    pub fn of(line: &'a [u8]) -> Words<'a>
        ensures { left result ≡ parts line.now }
    {
        Words { rest: Some(line) }
    }

    // What stands before the next blank or the end; it is empty where two blanks meet.
    pub fn next(&mut self) -> Option<&'a [u8]>
        ensures first { passed (option_copied result) (left self.new) ≡ first Some (left self.old) }
        ensures spent { IfNone result (left self.new ≡ []) }
    {
        let rest = self.rest?;
        match find_blank(rest) {
            Some(end) => {
                self.rest = Some(&rest[end + 1..]);
                Some(&rest[..end])
            }
            None => {
                self.rest = None;
                Some(rest)
            }
        }
    }

    pub fn verb(&mut self) -> Option<Verb>
        ensures { passed result (left self.new) ≡ first verb_of (left self.old) }
    {
        find_verb(self.next()?)
    }

    pub fn opening(&mut self) -> Option<Opening>
        ensures { passed result (left self.new) ≡ first opening_of (left self.old) }
    {
        find_opening(self.next()?)
    }

    pub fn number(&mut self) -> Option<u64>
        ensures { passed result (left self.new) ≡ first (numeral 64) (left self.old) }
    {
        read_number(self.next()?)
    }

    pub fn index(&mut self) -> Option<usize>
        ensures { passed result (left self.new) ≡ first (numeral 64) (left self.old) }
    {
        Some(self.number()? as usize)
    }

    pub fn short_number(&mut self) -> Option<u32>
        ensures { passed result (left self.new) ≡ first (numeral 32) (left self.old) }
    {
        read_short_number(self.next()?)
    }

    // A term, or none where no word is left.
    pub fn optional_term(&mut self) -> Option<Option<&'a [u8]>>
        ensures { passed (option_map option_copied result) (left self.new) ≡ optional_term (left self.old) }
    {
        match self.next() {
            None => Some(None),
            Some(word) => Some(Some(read_term(word)?)),
        }
    }
}
