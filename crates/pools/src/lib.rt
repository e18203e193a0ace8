// Pools of rewrite steps, the grants that they give, and a ledger of the grants that are out. The law over runs stands on
// `Ledger::perform`; that no grant is let go, on the `Drop` of `Grant`.
#![tactic(auto)]

pub mod fault;
pub mod grant;
pub mod ledger;
pub mod pool;

pub use fault::PoolFault;
pub use grant::Grant;
pub use ledger::{Ledger, PoolCall, PoolReply};
pub use pool::{Pool, Unsettled};

// No pool is larger, and no grant.
pub const MOST_STEPS: u64 = 281_474_976_710_655;

#[cfg(test)]
mod tests {
    use super::*;
    use std::test::Fail;

    #[test]
    fn a_fault_prints_its_line(rt: HostRuntime) -> Result<(), Fail> {
        let line = PoolFault::AboveSize.to_string(rt.alloc())?;
        assert!(rt; line.as_str() == "refused 46 pool 0");
        Ok(())
    }

    #[test]
    fn a_ledger_settles_by_number(rt: HostRuntime) -> Result<(), Fail> {
        let Ok(mut ledger) = Ledger::new(rt.alloc(), Pool::new(10, 5)?) else {
            return Ok(());
        };
        let calls = [
            PoolCall::Reserve(4),
            PoolCall::Reserve(7),
            PoolCall::Reserve(6),
            PoolCall::Settle(5),
            PoolCall::Settle(5),
        ];
        let replies = ledger.perform(rt.alloc(), &calls);
        let free = ledger.pool().free();
        let pool = ledger.close();
        let expected = [
            PoolReply::Given(5),
            PoolReply::Refused(PoolFault::AboveFree),
            PoolReply::Given(6),
            PoolReply::Settled,
            PoolReply::NotOut,
        ];
        assert!(rt; replies?.as_slice() == expected.as_slice());
        assert!(rt; free == 4);
        assert!(rt; pool.free() == 10);
        Ok(())
    }

    #[test]
    fn a_grant_of_another_pool_is_handed_back_where_it_does_not_fit(
        rt: HostRuntime,
    ) -> Result<(), Fail> {
        let mut pool = Pool::new(10, 1)?;
        let mut other = Pool::new(10, 1)?;
        let grant = other.reserve(3)?;
        let Unsettled { fault, grant } = pool.settle(grant).unwrap_err();
        assert!(rt; fault == PoolFault::AboveSize);
        assert!(rt; grant.number() == 1);
        assert!(rt; grant.amount() == 3);
        other.settle(grant).unwrap();
        assert!(rt; other.free() == other.size());
        Ok(())
    }
}
