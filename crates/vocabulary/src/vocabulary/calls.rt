// What names stand for, and how a vocabulary grows: a refusal leaves it as it is.
ghost use Rattle.std.specs.Prelude.{◌≡◌, ◌<◌, length, IfSome, is_some, is_ok, position, if◌then◌else◌};
ghost use Rattle.std.specs.Str.{bytes_eq};
ghost use Rattle.tokens.specs.Names.{name_bytes};
ghost use Rattle.std.specs.Option.{option_map};
ghost use Rattle.vocabulary.specs.Vocabularies.{names, symbol_names, symbol_arities, code_of, arity_of, empty, with_symbol, with_arity, with_variable};
ghost use Rattle.vocabulary.specs.Models.{vocabulary_of};
ghost use Rattle.vocabulary.specs.Replies.{name_at, declare_reply, number_reply, settle_reply, numbered, settled};
ghost use Rattle.vocabulary.specs.Laws.{CodeExactly, NameExactly, Keeps};

use crate::flaw::Flaw;
use crate::symbol::Symbol;
use crate::vocabulary::Vocabulary;
use bounded::ArrayVec;
use terms::{Code, FIRST_VARIABLE, MOST_ARGUMENTS};
use tokens::Name;

// The number of the first of the known names that is this one.
fn find(known: &[Name], name: &Name) -> Option<usize>
    ensures is { result ≡ position (λ x. bytes_eq (name_bytes x) (name_bytes name.now)) known.now }
    ensures within { IfSome result (λ i. i < length known.now) }
{
    known.iter().position(|other| other == name)
}

fn find_symbol(known: &[Symbol], name: &Name) -> Option<usize>
    ensures is { result ≡ position (λ s. bytes_eq (name_bytes s.name) (name_bytes name.now)) known.now }
    ensures within { IfSome result (λ i. i < length known.now) }
{
    known.iter().position(|symbol| symbol.name == *name)
}

impl Vocabulary {
    pub fn new() -> Self
        ensures { vocabulary_of result ≡ empty }
    {
        let name = Name::placeholder();
        Vocabulary {
            symbols: ArrayVec::new(Symbol { name, arity: None }),
            variables: ArrayVec::new(name),
        }
    }

    // The code that a name stands for: a declared name is always the variable.
    #[tactic(auto, using(bounded::proofs::Lengths::items_few))]
    pub fn code_of(&self, name: &Name) -> Option<u16>
        ensures value { result ≡ code_of (vocabulary_of self.now) (name_bytes name.now) }
        ensures means { CodeExactly (vocabulary_of self.now) (name_bytes name.now) result }
    {
        if let Some(variable) = find(self.variables.as_slice(), name) {
            return Some(FIRST_VARIABLE + variable as u16);
        }
        let symbol = find_symbol(self.symbols.as_slice(), name)?;
        Some(symbol as u16)
    }

    // The symbols, by number.
    pub fn symbols(&self) -> &[Symbol]
        ensures names { names (symbol_names result.now) ≡ (vocabulary_of self.now).symbols }
        ensures arities { symbol_arities result.now ≡ (vocabulary_of self.now).arities }
    {
        self.symbols.as_slice()
    }

    // A symbol's arity, once it is fixed.
    pub fn arity_of(&self, symbol: u16) -> Option<u8>
        ensures { result ≡ arity_of (vocabulary_of self.now) symbol }
    {
        let symbol = self.symbols.as_slice().get(symbol as usize);
        symbol.and_then(|symbol| symbol.arity)
    }

    // The name that a code has.
    pub fn name_of(&self, code: u16) -> Option<Name>
        ensures value { option_map name_bytes result ≡ name_at (vocabulary_of self.now) code }
        ensures means { NameExactly (vocabulary_of self.now) code (option_map name_bytes result) }
    {
        match Code::from(code) {
            Code::Symbol(symbol) => {
                let symbol = self.symbols.as_slice().get(symbol as usize);
                symbol.map(|symbol| symbol.name)
            }
            Code::Variable(variable) => self.variables.as_slice().get(variable as usize).copied(),
        }
    }

    // One more variable.
    pub fn declare(&mut self, name: &Name) -> Result<(), Flaw>
        ensures value { result ≡ declare_reply (vocabulary_of self.old) (name_bytes name.now) }
        ensures after { vocabulary_of self.new ≡ (if is_ok result then with_variable (vocabulary_of self.old) (name_bytes name.now) else vocabulary_of self.old) }
        ensures keeps { Keeps (vocabulary_of self.old) (vocabulary_of self.new) }
    {
        let mut variables = self.variables;
        variables.push(*name)?;
        if self.code_of(name).is_some() {
            return Err(Flaw::DeclaredTwice);
        }
        self.variables = variables;
        Ok(())
    }

    // The code that a name stands for, where a new name becomes the next symbol.
    pub fn number(&mut self, name: &Name) -> Result<u16, Flaw>
        ensures value { result ≡ number_reply (vocabulary_of self.old) (name_bytes name.now) }
        ensures after { vocabulary_of self.new ≡ numbered (vocabulary_of self.old) (name_bytes name.now) }
        ensures keeps { Keeps (vocabulary_of self.old) (vocabulary_of self.new) }
    {
        if let Some(code) = self.code_of(name) {
            return Ok(code);
        }
        let next = self.symbols.as_slice().len();
        self.symbols.push(Symbol {
            name: *name,
            arity: None,
        })?;
        Ok(next as u16)
    }

    // A complete use of a symbol: the first fixes its arity, and the others have to agree.
    pub fn settle(&mut self, symbol: u16, count: u8) -> Result<(), Flaw>
        ensures value { result ≡ settle_reply (vocabulary_of self.old) symbol count }
        ensures after { vocabulary_of self.new ≡ settled (vocabulary_of self.old) symbol count }
        ensures keeps { Keeps (vocabulary_of self.old) (vocabulary_of self.new) }
    {
        let place = symbol as usize;
        let known = self.symbols.as_slice().get(place).copied();
        let known = known.ok_or(Flaw::UnknownName)?;
        if let Some(arity) = known.arity {
            if arity == count {
                return Ok(());
            }
            return Err(Flaw::Arguments);
        }
        if count > MOST_ARGUMENTS {
            return Err(Flaw::Arguments);
        }
        let arity = Some(count);
        self.symbols.set(place, Symbol { arity, ..known });
        Ok(())
    }
}
