// What a host does for a term: it reserves the height, opens a job in full, sweeps for the reserve, and settles. Its pool
// then has again what it had, and the job has ended: in a normal form, or because the next term would be too long.
#![tactic(auto)]

ghost use Rattle.std.specs.Prelude.{◌≡◌, ◌+◌, ◌≤◌, IfOk, Ok};
ghost use Rattle.algebras.specs.Replies.{measured};
ghost use Rattle.pools.specs.Views.{state_of};
ghost use Rattle.terms.specs.Systems.{signature_of};
ghost use Rattle.hosting.specs.Answers.{HostTold, RunTold};

pub mod fault;

use algebras::Algebra;
pub use fault::HostFault;
use jobs::{Full, Sweep};
use pools::{Grant, Pool};
use terms::System;

// The job after its sweep, and the height that was reserved.
#[derive(Drop)]
pub struct Hosted {
    pub height: u64,
    pub job: Full,
    pub sweep: Sweep,
}

// Opens and sweeps with a grant in hand, which stays with the caller.
fn run<A: Algebra>(
    system: System,
    pile: &A,
    codes: &[u16],
    grant: &Grant,
) -> Result<Hosted, HostFault>
    requires { measured (A.means pile.now) (signature_of system) codes.now ≡ Ok grant.now.amount }
    ensures told { RunTold (A.means pile.now) system codes.now result }
    ensures height { IfOk result (λ h. h.height ≡ grant.now.amount) }
{
    let mut job = Full::open(system, pile, codes, grant)?;
    let sweep = job.sweep(grant, grant.amount())?;
    Ok(Hosted {
        height: grant.amount(),
        job,
        sweep,
    })
}

// The grant is settled on every way out.
pub fn host<A: Algebra>(
    pool: &mut Pool,
    system: System,
    pile: &A,
    codes: &[u16],
) -> Result<Hosted, HostFault>
    ensures free { (state_of pool.new).free ≡ (state_of pool.old).free }
    ensures size { (state_of pool.new).size ≡ (state_of pool.old).size }
    ensures means { HostTold (A.means pile.now) (state_of pool.old) system codes.now result }
    ensures height { IfOk result (λ h. Ok h.height ≡ measured (A.means pile.now) (signature_of system) codes.now) }
{
    let height = pile.measure(system.signature(), codes)?;
    let grant = pool.reserve(height)?;
    let hosted = run(system, pile, codes, &grant);
    pool.settle(grant).unwrap();
    hosted
}
