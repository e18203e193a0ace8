// A term read token by token.
ghost use Rattle.std.specs.Prelude.{◌≡◌, ◌<◌, length};
ghost use Rattle.tokens.specs.Names.{name_bytes};
ghost use Rattle.tokens.specs.Tokens.{Word.named};
ghost use Rattle.tokens.specs.Lexing.{word_of};
ghost use Rattle.vocabulary.specs.Models.{vocabulary_of};
ghost use Rattle.reading.specs.Sides.{fresh, is_full, is_whole, use_symbol, at_term};
ghost use Rattle.reading.specs.Models.{role_of, state_of, reply_of, Admits, Opens, Continues, close_use, side_step, UsesVariable, Numbers, Stands};

use crate::lookahead::Lookahead;
use crate::role::Role;
use crate::side::Side;
use crate::state::{Await, Use};
use bounded::ArrayVec;
use terms::{Code, MOST_ARGUMENTS};
use tokens::{Name, Token};
use vocabulary::{Flaw, Vocabulary};

impl Side {
    pub fn new() -> Side
        ensures { state_of result ≡ fresh }
    {
        Side {
            codes: ArrayVec::new(0),
            uses: ArrayVec::new(Use {
                symbol: 0,
                begun: 0,
            }),
            awaits: Await::Term,
        }
    }

    // Nothing is read yet.
    pub fn restart(&mut self)
        ensures { state_of self.new ≡ fresh }
    {
        self.uses.clear();
        self.codes.clear();
        self.awaits = Await::Term;
    }

    // Whether the term is complete.
    pub fn is_whole(&self) -> bool
        ensures { result ≡ is_whole (state_of self.now) }
    {
        self.uses.as_slice().is_empty() && self.awaits == Await::After
    }

    fn is_full(&self, role: &Role) -> bool
        ensures { result ≡ is_full (role_of role.now) (state_of self.now) }
    {
        self.codes.as_slice().len() >= role.limit()
    }

    // One more code: a use is complete at once if no bracket follows.
    fn admit(&mut self, role: &Role, code: u16, bare: bool) -> Result<(), Flaw>
        ensures { Admits (role_of role.now) (state_of self.old) bare code result (state_of self.new) }
    {
        if self.is_full(role) {
            return Err(Flaw::TooLong);
        }
        self.codes.push(code).unwrap();
        self.awaits = match Code::from(code) {
            _ if bare => Await::After,
            Code::Symbol(symbol) => {
                self.uses.push(Use { symbol, begun: 0 }).unwrap();
                Await::Bracket
            }
            Code::Variable(_) => Await::NoBracket,
        };
        Ok(())
    }

    // The code that a name stands for: new names become symbols, but not in a start term.
    fn number(&self, role: &Role, vocabulary: &mut Vocabulary, name: &Name) -> Result<u16, Flaw>
        ensures value { Numbers (role_of role.now) (vocabulary_of vocabulary.old) (state_of self.now) (name_bytes name.now) result (vocabulary_of vocabulary.new) }
        ensures known { Stands (vocabulary_of vocabulary.new) (name_bytes name.now) result }
    {
        match role {
            Role::Left | Role::Right(_) => vocabulary.number(name),
            Role::Start => {
                let code = vocabulary.code_of(name);
                code.ok_or(if self.is_full(role) {
                    Flaw::TooLong
                } else {
                    Flaw::UnknownName
                })
            }
        }
    }

    // A symbol: without a bracket behind it, its use is complete.
    fn use_symbol(
        &mut self,
        role: &Role,
        vocabulary: &mut Vocabulary,
        code: u16,
        bare: bool,
    ) -> Result<(), Flaw>
        requires { code < length (vocabulary_of vocabulary.old).symbols }
        ensures { reply_of result (vocabulary_of vocabulary.new) (state_of self.new) ≡ use_symbol (role_of role.now) (vocabulary_of vocabulary.old) (state_of self.old) bare code }
    {
        if bare {
            vocabulary.settle(code, 0)?;
        }
        self.admit(role, code, bare)
    }

    fn use_variable(&mut self, role: &Role, code: u16, bare: bool) -> Result<(), Flaw>
        ensures { UsesVariable (role_of role.now) (state_of self.old) bare code result (state_of self.new) }
    {
        if role.forbids(code) {
            return Err(Flaw::AbsentVariable);
        }
        self.admit(role, code, bare)
    }

    // A name where a term begins.
    fn begin(
        &mut self,
        role: &Role,
        vocabulary: &mut Vocabulary,
        name: &Name,
        bare: bool,
    ) -> Result<(), Flaw>
        ensures { reply_of result (vocabulary_of vocabulary.new) (state_of self.new) ≡ at_term (role_of role.now) (vocabulary_of vocabulary.old) (state_of self.old) bare (named (name_bytes name.now)) }
    {
        let code = self.number(role, vocabulary, name)?;
        match Code::from(code) {
            Code::Symbol(symbol) => self.use_symbol(role, vocabulary, symbol, bare),
            Code::Variable(_) => self.use_variable(role, code, bare),
        }
    }

    // The bracket of the innermost use.
    #[tactic(auto, using(std::proofs::lemmas::Grind::common_steps, bounded::proofs::Lengths::items_few))]
    fn open(&mut self) -> Result<(), Flaw>
        ensures { Opens (state_of self.old) result (state_of self.new) }
    {
        let last = self.uses.pop().ok_or(Flaw::Misplaced)?;
        self.uses.push(Use { begun: 1, ..last }).unwrap();
        self.awaits = Await::Term;
        Ok(())
    }

    // The next argument of the innermost use.
    #[tactic(auto, using(std::proofs::lemmas::Grind::common_steps, bounded::proofs::Lengths::items_few))]
    fn comma(&mut self) -> Result<(), Flaw>
        ensures { Continues (state_of self.old) result (state_of self.new) }
    {
        let last = self.uses.pop().ok_or(Flaw::Misplaced)?;
        if last.begun >= MOST_ARGUMENTS {
            return Err(Flaw::Arguments);
        }
        let begun = last.begun + 1;
        self.uses.push(Use { begun, ..last }).unwrap();
        self.awaits = Await::Term;
        Ok(())
    }

    // A complete use fixes its symbol's arity, or has to agree with it: an inner use comes before those around it.
    fn close(&mut self, vocabulary: &mut Vocabulary) -> Result<(), Flaw>
        ensures { reply_of result (vocabulary_of vocabulary.new) (state_of self.new) ≡ close_use (vocabulary_of vocabulary.old) (state_of self.old).codes (state_of self.old).uses }
    {
        let last = self.uses.pop().ok_or(Flaw::Misplaced)?;
        vocabulary.settle(last.symbol, last.begun)?;
        self.awaits = Await::After;
        Ok(())
    }

    // One token, where `bare` says that no bracket follows it. The text's end comes too early.
    pub fn read_token(
        &mut self,
        role: &Role,
        vocabulary: &mut Vocabulary,
        token: &Token,
        bare: bool,
    ) -> Result<(), Flaw>
        ensures { reply_of result (vocabulary_of vocabulary.new) (state_of self.new) ≡ side_step (role_of role.now) (vocabulary_of vocabulary.old) (state_of self.old) (word_of token.now) bare }
    {
        match (self.awaits, token) {
            (Await::Term, Token::Named(name)) => self.begin(role, vocabulary, name, bare),
            (Await::Term, Token::Long) => Err(Flaw::LongName),
            (Await::Bracket, Token::Open) => self.open(),
            (Await::After, Token::Comma) => self.comma(),
            (Await::After, Token::Close) => self.close(vocabulary),
            (_, Token::End) => Err(Flaw::Misplaced),
            (Await::NoBracket, _) => Err(Flaw::Arguments),
            _ => Err(Flaw::Misplaced),
        }
    }

    // The same, of a token with its lookahead.
    pub fn step(
        &mut self,
        role: &Role,
        vocabulary: &mut Vocabulary,
        ahead: &Lookahead,
    ) -> Result<(), Flaw>
        ensures { reply_of result (vocabulary_of vocabulary.new) (state_of self.new) ≡ side_step (role_of role.now) (vocabulary_of vocabulary.old) (state_of self.old) (word_of ahead.now.token) ahead.now.bare }
    {
        self.read_token(role, vocabulary, &ahead.token, ahead.bare)
    }
}
