// A job that was opened in full: no derivation from its term is longer than what is left of its reserve.
ghost use Rattle.job_calls.specs.Runs.{Lasts};
ghost use Rattle.jobs.specs.Views.{state_of};

use crate::job::Job;

mod calls;

#[derive(Drop)]
pub struct Full {
    job: Job,
    ghost lasts: { Lasts (state_of job) },
}
