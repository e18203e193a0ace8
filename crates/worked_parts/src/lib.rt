// The worked cases on parts: how rules of addition compare, heights and ceilings, asked of the code and of the definitions.
#![tactic(auto)]

ghost use Rattle.worked.specs.Cases.{AllHold};
ghost use Rattle.worked_parts.specs.Cases.{answered, worked};

mod list;
mod question;
mod worked_part;

pub use list::{Case, worked_cases};
pub use question::{Answer, Question};
pub use worked_part::{WorkedPart, part};

// What the definitions say of every worked case.
pub fn worked_cases_hold()
    ensures { AllHold answered worked }
{}
