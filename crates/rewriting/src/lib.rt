// Matching, one rewrite, the first redex and the normal-form test, on codes. Each call's contract says what it
// answers on codes and what that means for the rewrite relation on terms (specs/Laws.antt).
#![tactic(auto)]

mod bindings;
pub mod fault;
pub mod matching;
mod place;
mod replacing;
mod searching;
pub mod subject;

pub use fault::RewriteFault;
pub use matching::matches;
pub use subject::Subject;
