// A client with its grant in a slot, which settling empties.
ghost use Rattle.std.specs.Prelude.{◌≡◌, ◌+◌, ◌≤◌, Some, None};
ghost use Rattle.pools.specs.Views.{state_of};
ghost use Rattle.client.specs.Slots.{amount_in};

use crate::work::{Outcome, addition_pile, outcome_of, step_once};
use algebras::Algebra;
use hosting::HostFault;
use jobs::{Full, Sweep};
use pools::{Grant, Pool};
use worked::addition;

fn settle(pool: &mut Pool, slot: &mut Option<Grant>)
    requires { (state_of pool.old).free + amount_in slot.old ≤ (state_of pool.old).size }
    ensures free { (state_of pool.new).free ≡ (state_of pool.old).free + amount_in slot.old }
    ensures size { (state_of pool.new).size ≡ (state_of pool.old).size }
    ensures empty { slot.new ≡ None }
{
    if let Some(grant) = slot.take() {
        pool.settle(grant).unwrap();
    }
}

// The grant is settled on every way out.
pub fn run_in_slot(pool: &mut Pool, codes: &[u16]) -> Result<Outcome, HostFault>
    ensures free { (state_of pool.new).free ≡ (state_of pool.old).free }
    ensures size { (state_of pool.new).size ≡ (state_of pool.old).size }
{
    let height = addition_pile().measure(addition().signature(), codes)?;
    let mut slot = Some(pool.reserve(height)?);
    let opened = Full::open(addition(), &addition_pile(), codes, slot.as_ref().unwrap());
    let mut job = match opened {
        Ok(job) => job,
        Err(fault) => {
            settle(pool, &mut slot);
            return Err(HostFault::from(fault));
        }
    };
    let first = step_once(&mut job, slot.as_ref().unwrap());
    let swept = job.sweep(slot.as_ref().unwrap(), height);
    settle(pool, &mut slot);
    Ok(outcome_of(&job, first?, swept?)?)
}
