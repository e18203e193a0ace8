// Rule texts and start terms, read: accepted exactly if they are spelled, and read as what they spell. The law stands on
// `read_rules` and `read_term`.
#![tactic(auto)]

mod document;
pub mod fault;
pub mod named_system;
mod parts;
mod reader;

pub use fault::{Source, TextFault};
pub use named_system::{NamedSystem, read_rules, read_term};
