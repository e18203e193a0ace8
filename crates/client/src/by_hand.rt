// A client with its grant in hand.
ghost use Rattle.std.specs.Prelude.{◌≡◌};
ghost use Rattle.pools.specs.Views.{state_of};

use crate::work::{Outcome, addition_pile, outcome_of, step_once};
use algebras::Algebra;
use hosting::HostFault;
use jobs::Full;
use pools::{Grant, Pool};
use worked::addition;

// What is done while the grant is out. It is lent, and stays with the caller.
fn work(codes: &[u16], grant: &Grant) -> Result<Outcome, HostFault> {
    let mut job = Full::open(addition(), &addition_pile(), codes, grant)?;
    let first = step_once(&mut job, grant)?;
    let sweep = job.sweep(grant, grant.amount())?;
    Ok(outcome_of(&job, first, sweep)?)
}

// The grant is settled on every way out.
pub fn run_by_hand(pool: &mut Pool, codes: &[u16]) -> Result<Outcome, HostFault>
    ensures free { (state_of pool.new).free ≡ (state_of pool.old).free }
    ensures size { (state_of pool.new).size ≡ (state_of pool.old).size }
{
    let height = addition_pile().measure(addition().signature(), codes)?;
    let grant = pool.reserve(height)?;
    let worked = work(codes, &grant);
    pool.settle(grant).unwrap();
    worked
}
