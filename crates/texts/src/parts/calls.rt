// What each token adds to a text, and what is awaited behind it.
ghost use Rattle.std.specs.Prelude.{◌≡◌, ◌≤◌, true, [], length, IfOk};
ghost use Rattle.tokens.specs.Lexing.{word_of};
ghost use Rattle.bounded.specs.Items.{items};
ghost use Rattle.vocabulary.specs.Models.{vocabulary_of};
ghost use Rattle.reading.specs.Sides.{fresh};
ghost use Rattle.reading.specs.Documents.{Phase.bracket, Phase.keyword, Phase.variable, Phase.rule, Phase.arrow_behind, Phase.inside, word_for, behind};
ghost use Rattle.reading.specs.Holding.{Held};
ghost use Rattle.reading.specs.Models.{role_of, state_of};
ghost use Rattle.texts.specs.Parts.{rules_of, phase_of, with_phase};
ghost use Rattle.texts.specs.Documents.{goes_on, continues, token_move, Follows};

use crate::parts::{Parts, Phase, RuleCodes};
use bounded::ArrayVec;
use reading::{Block, Role, Side};
use terms::{MOST_RULES, starts_with_symbol};
use tokens::Token;
use vocabulary::{Flaw, Vocabulary};

fn keyword_of(block: Block) -> &'static [u8]
    ensures { result.now ≡ word_for block }
{
    match block {
        Block::Variables => b"VAR",
        Block::Rules => b"RULES",
    }
}

fn bracket(block: Block, token: &Token, phase: &mut Phase) -> Result<(), Flaw>
    ensures { Follows result phase.new (bracket block) (word_of token.now) }
{
    match token {
        Token::Open => {
            *phase = Phase::Keyword(block);
            Ok(())
        }
        _ => Err(Flaw::Misplaced),
    }
}

fn keyword(block: Block, token: &Token, phase: &mut Phase) -> Result<(), Flaw>
    ensures { Follows result phase.new (keyword block) (word_of token.now) }
{
    match token {
        Token::Named(name) if name.bytes() == keyword_of(block) => {
            *phase = match block {
                Block::Variables => Phase::Variable,
                Block::Rules => Phase::Rule,
            };
            Ok(())
        }
        _ => Err(Flaw::Misplaced),
    }
}

// The codes of a rule's side.
fn side_codes(side: &Side) -> ArrayVec<u16, 32>
    requires { length (state_of side.now).codes ≤ 32 }
    ensures { items result ≡ (state_of side.now).codes }
{
    let mut codes = ArrayVec::new(0);
    codes.extend(side.codes.as_slice()).unwrap();
    codes
}

impl Parts {
    pub(crate) fn new(vocabulary: Vocabulary) -> Parts
        ensures names { vocabulary_of result.vocabulary ≡ vocabulary_of vocabulary }
        ensures rules { rules_of (items result.rules) ≡ [] }
        ensures side { state_of result.side ≡ fresh }
    {
        Parts {
            vocabulary,
            rules: ArrayVec::new(RuleCodes {
                left: ArrayVec::new(0),
                right: ArrayVec::new(0),
            }),
            side: Side::new(),
        }
    }

    // A variable, or the end of their block.
    fn variable(&mut self, token: &Token, phase: &mut Phase) -> Result<(), Flaw>
        ensures { goes_on result phase.new self.new ≡ token_move (with_phase self.old variable) (word_of token.now) true }
    {
        match token {
            Token::Named(name) => {
                self.vocabulary.declare(name)?;
                *phase = Phase::Variable;
                Ok(())
            }
            Token::Close => {
                *phase = Phase::Bracket(Block::Rules);
                Ok(())
            }
            Token::Long => Err(Flaw::LongName),
            _ => Err(Flaw::Misplaced),
        }
    }

    // One token of a term: whether the term is whole.
    fn inside(&mut self, role: &Role, token: &Token, bare: bool) -> Result<bool, Flaw>
        requires { Held (vocabulary_of self.old.vocabulary) (rules_of (items self.old.rules)) (inside (role_of role.now) (state_of self.old.side)) }
        ensures value { continues (role_of role.now) result self.new ≡ token_move (with_phase self.old (inside (role_of role.now) (state_of self.old.side))) (word_of token.now) bare }
        ensures held { IfOk result (λ _. Held (vocabulary_of self.new.vocabulary) (rules_of (items self.new.rules)) (inside (role_of role.now) (state_of self.new.side))) }
    {
        self.side
            .read_token(role, &mut self.vocabulary, token, bare)?;
        Ok(self.side.is_whole())
    }

    // What a whole term is, and what follows it.
    fn behind(&mut self, role: Role, phase: &mut Phase)
        requires { Held (vocabulary_of self.old.vocabulary) (rules_of (items self.old.rules)) (inside (role_of role) (state_of self.old.side)) }
        ensures { with_phase self.new (phase_of phase.new self.new.side) ≡ behind (role_of role) (vocabulary_of self.old.vocabulary) (rules_of (items self.old.rules)) (state_of self.old.side).codes }
    {
        match role {
            Role::Left => {
                *phase = Phase::Arrow(side_codes(&self.side));
            }
            Role::Right(left) => {
                let right = side_codes(&self.side);
                self.rules.push(RuleCodes { left, right }).unwrap();
                *phase = Phase::Rule;
            }
            Role::Start => {
                *phase = Phase::Ended;
            }
        }
    }

    // A rule, or the end of their block.
    fn rule(&mut self, token: &Token, bare: bool, phase: &mut Phase) -> Result<(), Flaw>
        ensures { goes_on result phase.new self.new ≡ token_move (with_phase self.old rule) (word_of token.now) bare }
    {
        match token {
            Token::Named(_) if self.rules.as_slice().len() >= MOST_RULES => Err(Flaw::TooMany),
            Token::Named(_) => {
                self.side.restart();
                if self.inside(&Role::Left, token, bare)? {
                    self.behind(Role::Left, phase);
                } else {
                    *phase = Phase::Inside(Role::Left);
                }
                Ok(())
            }
            Token::Close => {
                *phase = Phase::Closed;
                Ok(())
            }
            Token::Long => Err(Flaw::LongName),
            _ => Err(Flaw::Misplaced),
        }
    }

    // The arrow behind a left side, at which it is certain that this is no variable.
    fn arrow(
        &mut self,
        left: ArrayVec<u16, 32>,
        token: &Token,
        phase: &mut Phase,
    ) -> Result<(), Flaw>
        ensures { goes_on result phase.new self.new ≡ token_move (with_phase self.old (arrow_behind (items left))) (word_of token.now) true }
    {
        match token {
            Token::Arrow if starts_with_symbol(left.as_slice()) => {
                self.side.restart();
                *phase = Phase::Inside(Role::Right(left));
                Ok(())
            }
            Token::Arrow => Err(Flaw::LeftVariable),
            _ => Err(Flaw::Misplaced),
        }
    }

    // By what is awaited, and on to what is awaited next. A phase holds a side: each is written in place, and none is
    // where more of a term is awaited, as before.
    pub(crate) fn step(&mut self, phase: &mut Phase, token: &Token, bare: bool) -> Result<(), Flaw>
        requires { Held (vocabulary_of self.old.vocabulary) (rules_of (items self.old.rules)) (phase_of phase.old self.old.side) }
        ensures { goes_on result phase.new self.new ≡ token_move (with_phase self.old (phase_of phase.old self.old.side)) (word_of token.now) bare }
    {
        match phase {
            Phase::Bracket(block) => bracket(*block, token, phase),
            Phase::Keyword(block) => keyword(*block, token, phase),
            Phase::Variable => self.variable(token, phase),
            Phase::Rule => self.rule(token, bare, phase),
            Phase::Arrow(left) => self.arrow(*left, token, phase),
            Phase::Inside(role) => {
                if self.inside(role, token, bare)? {
                    self.behind(*role, phase);
                }
                Ok(())
            }
            Phase::Closed | Phase::Ended => Err(Flaw::Misplaced),
        }
    }
}
