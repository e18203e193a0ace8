// Jobs: a term is rewritten by a system against a grant. A job that was opened in full is never cut off; the law stands
// on the calls of `Full`.
#![tactic(auto)]

pub mod call;
pub mod fault;
pub mod full;
pub mod inputs;
pub mod job;

pub use call::Call;
pub use fault::OpenFault;
pub use full::Full;
pub use inputs::{Inputs, Opened, open_texts, read_inputs};
pub use job::Job;
pub use job_calls::{Answer, End, JobFault, Look, Sweep};
