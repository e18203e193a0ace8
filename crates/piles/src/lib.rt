// The parts of a certificate as algebras, and the pile that four of them make: the sum of two sums, by `pile_of`.
#![tactic(auto)]

pub mod part;
pub mod piling;

pub use part::Part;
pub use piling::{Pile, pile_of};
