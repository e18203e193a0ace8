// Vectors of bounded length that own their memory, for everything in the product that has a limit. Each call says what items
// it leaves.
#![tactic(auto)]

pub mod array_vec;

pub use array_vec::{ArrayVec, Full};
