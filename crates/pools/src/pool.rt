// A pool: its size, what of it is free, and the last number given.
ghost use Rattle.std.specs.Prelude.{◌≤◌};

use crate::fault::PoolFault;
use crate::grant::Grant;

mod calls;

#[derive(Drop)]
pub struct Pool {
    size: u64,
    free: u64,
    last: u32,
    ghost within: { free ≤ size },
    ghost bounded: { size ≤ 281474976710655 },
}

// A refused settling hands the grant back.
pub struct Unsettled {
    pub fault: PoolFault,
    pub grant: Grant,
}
