// The folder of a program: a rule text, a certificate and a start term, which are read; and how many rules, symbols and
// parts these have.
#![tactic(auto)]

pub mod counts;
pub mod files;

pub use counts::Counts;
pub use files::read_folder;
