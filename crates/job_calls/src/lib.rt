// What a job is asked and what it answers; in specs/ what each call answers by definition, the plain job, and the law
// that no answer of a job that was opened in full is a cut-off.
#![tactic(auto)]

pub mod answer;
pub mod fault;

pub use answer::{Answer, End, Look, Sweep};
pub use fault::JobFault;
