// What linear and matrix parts do alike: tests of every symbol, and sums of products.
ghost use Rattle.std.specs.Prelude.{◌≡◌, ◌*◌, ◌≤◌, ℕ, All, Bool, if◌then◌else◌};
ghost use Rattle.std.specs.List.{list_all, zip};
ghost use Rattle.terms.specs.Models.{arities_of};
ghost use Rattle.algebras.specs.Meanings.{reach};
ghost use Rattle.parts.specs.Vectors.{dotted};

use terms::Signature;

// Whether a test of a symbol and its arity passes at each.
pub(crate) fn all_symbols<S, F: Fn(&S, u8) -> bool>(
    signature: &Signature,
    symbols: &[S; 32],
    test: F,
) -> bool
    ghost passes: { S → ℕ → Bool }
    requires callable { F.IsAlwaysCallable test }
    requires tests { (symbol : _) (arity : _) (answer : _) → F.post test symbol arity answer → answer ≡ passes symbol.now arity }
    ensures { result ≡ list_all (λ s. passes s.1 s.0) (zip (arities_of signature.now) symbols.now) }
{
    signature
        .arities()
        .iter()
        .zip(symbols)
        .all(|(arity, symbol)| test(symbol, *arity))
}

// The constant, if it counts.
pub(crate) fn base(constant: bool, entry: u8) -> u64
    ensures { result ≡ (if constant then entry else 0) }
{
    if constant { u64::from(entry) } else { 0 }
}

// The sum of entries times values, place by place.
pub(crate) fn dot(entries: &[u8; 4], values: &[u64]) -> u64
    requires { All (λ value. value ≤ reach) values.now }
    ensures sum { result ≡ dotted entries.now values.now }
    ensures bound { result ≤ 1020 * reach }
{
    entries
        .iter()
        .zip(values)
        .map(|(entry, value)| u64::from(*entry) * *value)
        .sum()
}
