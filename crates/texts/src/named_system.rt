// A system with the names of its symbols and variables.
ghost use Rattle.std.specs.Prelude.{◌≡◌};
ghost use Rattle.terms.specs.Systems.{signature_of};
ghost use Rattle.vocabulary.specs.Naming.{naming_of};

use terms::System;
use vocabulary::Names;

mod calls;

pub use calls::{read_rules, read_term};

// Both have the same signature.
#[derive(Clone, Copy)]
pub struct NamedSystem {
    pub system: System,
    pub names: Names,
    ghost agree: { signature_of system ≡ (naming_of names).signature },
}
