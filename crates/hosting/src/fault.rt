// Why a term has no job: the fault of whatever refused stands whole in it.
ghost use Rattle.std.specs.Prelude.{◌≡◌, Some};
ghost use Rattle.refusals.specs.Lines.{line};
ghost use Rattle.hosting.specs.declared.fault.HostFault.TheVariants as fault;
ghost use Rattle.hosting.specs.Faults.{host_refusal};

use algebras::AlgebraFault;
use jobs::{JobFault, OpenFault};
use pools::PoolFault;
use refusals::Refusal;
use std::fmt;

#[derive(Clone, Copy, PartialEq, Eq, Debug)]
pub enum HostFault {
    // There is no height to reserve.
    Height(AlgebraFault),
    Pool(PoolFault),
    Open(OpenFault),
    Job(JobFault),
}

impl From<AlgebraFault> for HostFault {
    ghost from_gives = { λ f r. r ≡ fault.Height f };

    fn from(fault: AlgebraFault) -> Self {
        Self::Height(fault)
    }
}

impl From<PoolFault> for HostFault {
    ghost from_gives = { λ f r. r ≡ fault.Pool f };

    fn from(fault: PoolFault) -> Self {
        Self::Pool(fault)
    }
}

impl From<OpenFault> for HostFault {
    ghost from_gives = { λ f r. r ≡ fault.Open f };

    fn from(fault: OpenFault) -> Self {
        Self::Open(fault)
    }
}

impl From<JobFault> for HostFault {
    ghost from_gives = { λ f r. r ≡ fault.Job f };

    fn from(fault: JobFault) -> Self {
        Self::Job(fault)
    }
}

impl From<HostFault> for Refusal {
    ghost from_gives = { λ f r. r ≡ host_refusal f };

    fn from(fault: HostFault) -> Refusal {
        match fault {
            HostFault::Height(fault) => Refusal::from(fault),
            HostFault::Pool(fault) => Refusal::from(fault),
            HostFault::Open(fault) => Refusal::from(fault),
            HostFault::Job(fault) => Refusal::from(fault),
        }
    }
}

// The line of its refusal.
impl fmt::Display for HostFault {
    ghost output = { λ f. Some (line (host_refusal f)) };

    fn fmt<W: fmt::Write>(&self, f: &mut fmt::Formatter<W>) -> fmt::Result {
        Refusal::from(*self).fmt(f)
    }
}
