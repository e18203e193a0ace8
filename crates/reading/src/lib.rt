// How texts are read, token by token: rule texts, and start terms over the names of one. The definitions are in specs/,
// and above them the laws: a text is accepted exactly if it is spelled, and a refusal is certain where it stands. The
// code reads one term.
#![tactic(auto)]

ghost use Rattle.std.specs.Prelude.{◌≡◌};
ghost use Rattle.reading.specs.Laws.{StartExactly};
ghost use Rattle.reading.specs.Exactly.{TextsRead};

pub mod lookahead;
pub mod role;
pub mod side;
pub mod state;

pub use lookahead::Lookahead;
pub use role::Role;
pub use side::Side;
pub use state::{Await, Block, Use};

// Over names whose arities are fixed, words are read as a start term exactly if they spell one.
pub fn spelled_terms_are_read()
    ensures { StartExactly }
{}

// Rule texts and start terms are accepted exactly if they are spelled, and their refusals stand.
pub fn texts_are_read_as_spelled()
    ensures { TextsRead }
{}
