// A ledger: a pool, and the grants that it gave and that are not yet settled.
ghost use Rattle.std.specs.Prelude.{◌≡◌, ◌+◌, ◌<◌, ◌≤◌, All, AllPairs};
ghost use Rattle.pools.specs.Grants.{total};

use crate::fault::PoolFault;
use crate::grant::Grant;
use crate::pool::Pool;

mod calls;

// A call on a pool whose grants the ledger keeps: a grant is settled by its number.
#[derive(Clone, Copy, PartialEq, Eq, Debug)]
pub enum PoolCall {
    Reserve(u64),
    Settle(u32),
}

#[derive(Clone, Copy, PartialEq, Eq, Debug)]
pub enum PoolReply {
    // The number of the grant that was given.
    Given(u32),
    Settled,
    // No grant of this number is out.
    NotOut,
    Refused(PoolFault),
}

// It can't be let go: `close` settles what is out and hands the pool back.
pub struct Ledger {
    pool: Pool,
    out: Vec<Grant>,
    ghost balanced: { total out.items + pool.free ≡ pool.size },
    ghost numbered: { AllPairs (λ g h. g.number < h.number) out.items },
    ghost given: { All (λ g. g.number ≤ pool.last) out.items },
}
