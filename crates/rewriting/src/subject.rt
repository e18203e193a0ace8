// A subject: a term that is rewritten by a system, with memory set aside for the next term.
ghost use Rattle.std.specs.Prelude.{T};
ghost use Rattle.bounded.specs.Items.{items};
ghost use Rattle.terms.specs.Codes.{is_term};
ghost use Rattle.terms.specs.Systems.{signature_of};

use bounded::ArrayVec;
use terms::System;

mod calls;

#[derive(Drop)]
pub struct Subject {
    system: System,
    term: ArrayVec<u16, 1024>,
    next: ArrayVec<u16, 1024>,
    ghost over: { T (is_term (signature_of system) (items term)) },
}
