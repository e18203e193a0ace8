// Terms, rules and systems. What they mean stands in specs/, as trees and relations on trees; the calls here work
// on codes, and their contracts tie the two (specs/Laws.antt).
#![tactic(auto)]

pub mod code;
pub mod codes;
pub mod malformed;
pub mod rule;
pub mod signature;
pub mod system;

pub use code::Code;
pub use codes::Codes;
pub use malformed::Malformed;
pub use rule::{Rule, has_code, starts_with_symbol};
pub use signature::Signature;
pub use system::System;

pub const VARIABLES: u16 = 8;

// From this code on a code is a variable's.
pub const FIRST_VARIABLE: u16 = 32768;
// The last of the eight variables.
pub const LAST_VARIABLE: u16 = 32775;

pub const MOST_ARGUMENTS: u8 = 4;

pub const MOST_RULES: usize = 32;

pub const MOST_SIDE: usize = 32;

pub const MOST_TERM: usize = 1024;

#[cfg(test)]
mod tests {
    use super::*;
    use std::test::Fail;

    #[test]
    fn codes_print_behind_blanks(rt: HostRuntime) -> Result<(), Fail> {
        let codes = Codes(&[0, 32768]).to_string(rt.alloc())?;
        assert!(rt; codes.as_str() == " 0 32768");
        Ok(())
    }
}
