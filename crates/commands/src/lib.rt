// How a line at a planner's console is read as a command.
#![tactic(auto)]

mod command;
mod help;
mod numeral;
mod reading;
#[cfg(test)]
mod tests;
mod verb;
mod words;

pub use command::{Command, Opening};
pub use help::HELP;
pub use reading::read_command;
