// The calls. A refused one leaves the pool as it is.
ghost use Rattle.std.specs.Prelude.{◌≡◌};
ghost use Rattle.pools.specs.Pools.{opening, reserving, settling};
ghost use Rattle.pools.specs.Views.{state_of, state_made};
ghost use Rattle.pools.specs.Laws.{Reserved, Settled};

use crate::MOST_STEPS;
use crate::fault::PoolFault;
use crate::grant::Grant;
use crate::pool::{Pool, Unsettled};

impl Pool {
    // All free; the first grant has this number.
    pub fn new(size: u64, first: u32) -> Result<Pool, PoolFault>
        ensures { state_made result ≡ opening size first }
    {
        if size > MOST_STEPS || first == 0 {
            return Err(PoolFault::OutOfRange);
        }
        Ok(Pool {
            size,
            free: size,
            last: first - 1,
        })
    }

    pub fn size(&self) -> u64
        ensures { result ≡ (state_of self.now).size }
    {
        self.size
    }

    pub fn free(&self) -> u64
        ensures { result ≡ (state_of self.now).free }
    {
        self.free
    }

    // Takes the amount out of what is free. A refusal uses no number.
    pub fn reserve(&mut self, amount: u64) -> Result<Grant, PoolFault>
        ensures value { (result, state_of self.new) ≡ reserving (state_of self.old) amount }
        ensures means { Reserved (state_of self.old) amount result (state_of self.new) }
    {
        if amount > MOST_STEPS {
            return Err(PoolFault::OutOfRange);
        }
        if self.last == u32::MAX {
            return Err(PoolFault::NumbersGiven);
        }
        if amount > self.free {
            return Err(PoolFault::AboveFree);
        }
        self.free -= amount;
        self.last += 1;
        Ok(Grant::new(self.last, amount))
    }

    // Puts the grant's amount back and uses it up, whichever pool gave it.
    pub fn settle(&mut self, grant: Grant) -> Result<(), Unsettled>
        ensures value { (result, state_of self.new) ≡ settling (state_of self.old) grant }
        ensures means { Settled (state_of self.old) grant result (state_of self.new) }
    {
        if grant.amount() > self.size - self.free {
            return Err(Unsettled {
                fault: PoolFault::AboveSize,
                grant,
            });
        }
        self.free += grant.amount();
        grant.spend();
        Ok(())
    }
}
