// The worked cases, run through the code: one line a case, and whether the answer is the expected one.
#![tactic(auto)]

ghost use Rattle.worked.specs.Cases.{AllHold};
ghost use Rattle.cases.specs.Cases.{answered, worked};

mod list;
mod question;

use list::worked_cases;
use std::io;

// What the definitions say of every worked case.
pub fn worked_cases_hold()
    ensures { AllHold answered worked }
{}

fn main(rt: HostRuntime) -> io::Result<()> {
    worked_cases_hold();
    for case in worked_cases().as_slice() {
        println!(rt; "{}", case.report(case.question.answer()))?;
    }
    Ok(())
}
