// The mathematics of linear and matrix parts, for every dimension. The definitions and laws are in specs/; there is no
// code here beyond functions whose contracts are the laws.
#![tactic(auto)]

ghost use Rattle.interpretations.specs.Laws.{Formed, WeakExactly, StrictExactly, GivenExactly, ReadableExactly, UntestedFits, LinearCeiled, PartsLawful};

// The value of a term is its linear form applied to the assignment, and rules are weak and strict exactly by the values.
pub fn forms_order_rules()
    ensures formed { Formed }
    ensures weak { WeakExactly }
    ensures strict { StrictExactly }
{}

// What is given and readable goes by the subterms, and a sum of what is within reach fits.
pub fn reach_goes_by_subterms()
    ensures given { GivenExactly }
    ensures readable { ReadableExactly }
    ensures untested { UntestedFits }
{}

// Parts are lawful algebras; linear parts with factors 1 have a ceiling.
pub fn parts_are_lawful()
    ensures lawful { PartsLawful }
    ensures ceiled { LinearCeiled }
{}
