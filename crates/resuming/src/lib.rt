// The search for the first redex, step after step: it goes on where a step could have made a new one, and not at the term's
// front. That no redex is passed by is an invariant of `Search`.
#![tactic(auto)]

pub mod climbing;
pub mod search;
mod seeing;

pub use climbing::back_up;
pub use search::Search;
