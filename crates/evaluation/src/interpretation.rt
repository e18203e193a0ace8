// What the symbols of a signature stand for, at one kind of value.
ghost use Rattle.std.specs.Prelude.{◌≡◌, ℕ, ◌<◌, true, List, length, slice_index};
ghost use Rattle.terms.specs.Limits.{variables};
ghost use Rattle.terms.specs.Models.{arities_of};
ghost use Rattle.evaluation.specs.Structures.{Structure, tested, Every};

use terms::Signature;

pub trait Interpretation {
    type Value: Copy;

    // the arities of the symbols that are interpreted
    ghost arities: { Self → List ℕ };

    // what symbols and variables stand for, and which values are within the bound
    ghost structure: { Self → Structure Self.Value };

    fn signature(&self) -> &Signature
        ensures { arities_of result.now ≡ arities self.now };

    // A variable's value is within the bound.
    fn variable(&self, number: usize) -> Self::Value
        requires { number < variables }
        ensures value { result ≡ (structure self.now).assigned number }
        ensures tested { (structure self.now).within result ≡ true };

    // What a symbol makes of as many values as it has arguments; none if that is out of the bound.
    fn apply(&self, symbol: usize, args: &[Self::Value]) -> Option<Self::Value>
        requires known { symbol < length (arities self.now) }
        requires count { length args.now ≡ slice_index (arities self.now) symbol }
        requires tested { Every (structure self.now).within args.now }
        ensures { result ≡ tested (structure self.now).within ((structure self.now).result symbol args.now) };
}
