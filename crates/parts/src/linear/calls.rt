// What is made, told and reckoned of a linear part.
ghost use Rattle.std.specs.Prelude.{◌≡◌, ◌<◌, min, IfSome, refl, nat_eq, nat_lt, slice_index};
ghost use Rattle.terms.specs.Models.{arities_of};
ghost use Rattle.interpretations.specs.Numbers.{every};
ghost use Rattle.interpretations.specs.Orders.{all_ones, largest_constant, linear_ceiling};
ghost use Rattle.parts.specs.Kinds.{linear_part};
ghost use Rattle.parts.specs.Vectors.{number, number_columns};
ghost use Rattle.parts.specs.Views.{linear_of};
ghost use Rattle.parts.specs.Making.{Made};
ghost use Rattle.parts.specs.Columned.{number_faithful, number-unit_within};
ghost use Rattle.parts.specs.Lawfuls.{linear_limited};

use crate::linear::{LinearPart, LinearSymbol};
use crate::symbols::{all_symbols, base, dot};
use algebras::REACH;
use forms::Reckoning;
use terms::Signature;

impl LinearSymbol {
    // Whether the factors of as many arguments are positive.
    fn is_positive(&self, arity: u8) -> bool
        ensures { result ≡ every (min arity 4) (λ k. nat_lt 0 (slice_index self.now.factors k)) }
    {
        self.factors
            .iter()
            .take(arity as usize)
            .all(|factor| *factor > 0)
    }

    // Whether they are 1.
    fn is_unit(&self, arity: u8) -> bool
        ensures { result ≡ every (min arity 4) (λ k. nat_eq (slice_index self.now.factors k) 1) }
    {
        self.factors
            .iter()
            .take(arity as usize)
            .all(|factor| *factor == 1)
    }
}

impl LinearPart {
    // A constant for each symbol and a factor for each argument; what stands past the symbols and their arguments
    // counts for nothing. None if some factor is 0.
    pub fn new(signature: Signature, symbols: [LinearSymbol; 32]) -> Option<LinearPart>
        ensures made { Made linear_of (linear_part (arities_of signature) symbols) result }
        ensures kept { IfSome result (λ p. (p.signature ≡ signature) × (p.symbols ≡ symbols)) }
    {
        if !all_symbols(&signature, &symbols, LinearSymbol::is_positive) {
            return None;
        }
        Some(LinearPart { signature, symbols })
    }

    // What the heights of all terms of a size are at most, if every factor is 1.
    pub(crate) fn ceiling_at(&self, size: u16) -> Option<u64>
        ensures { result ≡ linear_ceiling (linear_of self.now) size }
    {
        if !self.all_ones() {
            return None;
        }
        Some(u64::from(size) * u64::from(self.largest()))
    }

    fn all_ones(&self) -> bool
        ensures { result ≡ all_ones (linear_of self.now) }
    {
        all_symbols(&self.signature, &self.symbols, LinearSymbol::is_unit)
    }

    fn largest(&self) -> u8
        ensures { result ≡ largest_constant (linear_of self.now) }
    {
        self.symbols
            .iter()
            .take(self.signature.arities().len())
            .map(|symbol| symbol.constant)
            .max()
            .unwrap_or(0)
    }
}

impl Reckoning for LinearPart {
    type Vector = u64;

    ghost meaning = { linear_of };

    ghost entry = { number };

    ghost columns = { λ p. number_columns (linear_of p) };

    ghost faithful = { λ p. number_faithful (arities_of p.signature) p.symbols };

    ghost limited = { linear_limited };

    ghost zeros = { λ p. refl };

    ghost units = { λ p v k. number-unit_within v k };

    fn signature(&self) -> &Signature {
        &self.signature
    }

    fn first(&self, vector: u64) -> u64 {
        vector
    }

    fn covers(&self, left: u64, right: u64) -> bool {
        right <= left
    }

    fn zero(&self) -> u64 {
        0
    }

    fn unit(&self, variable: usize, k: usize) -> u64 {
        u64::from(k == 4 * variable + 1)
    }

    fn combine(&self, constant: bool, symbol: usize, args: &[u64]) -> Option<u64> {
        let symbol = &self.symbols[symbol];
        let value = base(constant, symbol.constant) + dot(&symbol.factors, args);
        (value <= REACH).then_some(value)
    }
}
