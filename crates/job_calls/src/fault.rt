// Why a call on a job is refused.
ghost use Rattle.std.specs.Prelude.{◌≡◌, Some};
ghost use Rattle.refusals.specs.Lines.{line};
ghost use Rattle.job_calls.specs.declared.fault.JobFault.TheVariants as fault;
ghost use Rattle.job_calls.specs.Words.{job_refusal};

use refusals::{Layer, Refusal};
use rewriting::RewriteFault;
use std::fmt;

#[derive(Clone, Copy, PartialEq, Eq, Debug)]
pub enum JobFault {
    // The grant's number is not the job's.
    OtherGrant,
    Rewrite(RewriteFault),
    // The count equals the reserve.
    Spent,
    ShortMemory,
}

impl From<RewriteFault> for JobFault {
    ghost from_gives = { λ f r. r ≡ fault.Rewrite f };

    fn from(fault: RewriteFault) -> Self {
        Self::Rewrite(fault)
    }
}

impl From<JobFault> for Refusal {
    ghost from_gives = { λ f r. r ≡ job_refusal f };

    fn from(fault: JobFault) -> Refusal {
        let number = match fault {
            JobFault::Rewrite(fault) => return Refusal::from(fault),
            JobFault::OtherGrant => 45,
            JobFault::Spent => 44,
            JobFault::ShortMemory => 23,
        };
        Refusal {
            number,
            layer: Layer::Job,
            place: 0,
        }
    }
}

// The line of its refusal.
impl fmt::Display for JobFault {
    ghost output = { λ f. Some (line (job_refusal f)) };

    fn fmt<W: fmt::Write>(&self, f: &mut fmt::Formatter<W>) -> fmt::Result {
        Refusal::from(*self).fmt(f)
    }
}
