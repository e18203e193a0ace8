// The worked cases on codes: questions over addition, asked of the code and of the definitions.
#![tactic(auto)]

ghost use Rattle.worked.specs.Cases.{AllHold, answered, worked};

mod list;
mod question;
mod report;
mod system;

pub use list::{Case, worked_cases};
pub use question::Question;
pub use report::Report;
pub use system::addition;

// What the definitions say of every worked case.
pub fn worked_cases_hold()
    ensures { AllHold answered worked }
{}
