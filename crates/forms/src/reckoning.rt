// How a part reckons with vectors of its dimension.
ghost use Rattle.std.specs.Prelude.{◌≡◌, ℕ, ◌<◌, true, length, slice_index};
ghost use Rattle.terms.specs.Limits.{variables};
ghost use Rattle.terms.specs.Models.{arities_of};
ghost use Rattle.evaluation.specs.Structures.{tested, Every};
ghost use Rattle.interpretations.specs.Parts.{Part};
ghost use Rattle.forms.specs.Columns.{Columns, width};
ghost use Rattle.forms.specs.Faithful.{Faithful, Limited, covers as covering};

use terms::Signature;

pub trait Reckoning {
    type Vector: Copy;

    // the part that it is
    ghost meaning: { Self → Part };

    // an entry of a vector
    ghost entry: { Self.Vector → ℕ → ℕ };

    // how vectors are made
    ghost columns: { Self → Columns Self.Vector };

    fn signature(&self) -> &Signature
        ensures { arities_of result.now ≡ (meaning self.now).sig };

    // The first entry.
    fn first(&self, vector: Self::Vector) -> u64
        ensures { result ≡ entry vector 0 };

    // Whether no entry of the right vector is greater.
    fn covers(&self, left: Self::Vector, right: Self::Vector) -> bool
        ensures { result ≡ covering (meaning self.now) (entry left) (entry right) };

    fn zero(&self) -> Self::Vector
        ensures { result ≡ (columns self.now).zero };

    // Column k of a variable's form.
    fn unit(&self, variable: usize, k: usize) -> Self::Vector
        requires { (variable < variables) × (k < width) }
        ensures { result ≡ (columns self.now).unit variable k };

    // What a symbol makes of its arguments' vectors, with its constant or without; none if that is out of reach.
    fn combine(&self, constant: bool, symbol: usize, args: &[Self::Vector]) -> Option<Self::Vector>
        requires known { symbol < length (meaning self.now).sig }
        requires count { length args.now ≡ slice_index (meaning self.now).sig symbol }
        requires tested { Every (columns self.now).within args.now }
        ensures { result ≡ tested (columns self.now).within ((columns self.now).combined constant symbol args.now) };

    ghost faithful: { (p : Self) → Faithful (columns p) entry (meaning p) };

    ghost limited: { (p : Self) → Limited (meaning p) };

    ghost zeros: { (p : Self) → (columns p).within (columns p).zero ≡ true };

    ghost units: { (p : Self) (v k : ℕ) → (columns p).within ((columns p).unit v k) ≡ true };
}
