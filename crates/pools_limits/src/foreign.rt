// A grant of another pool, which is taken where it fits. It shows what a client does with grants in hand: each is settled
// on every way out, since none can be let go.
use pools::{MOST_STEPS, Pool, PoolFault, Unsettled};

// What a pool of this size, of which so much is taken, answers to another pool's grant of an amount.
pub fn settle_foreign(size: u64, taken: u64, amount: u64) -> Result<(), PoolFault> {
    let mut home = Pool::new(size, 1)?;
    let mut abroad = Pool::new(MOST_STEPS, 1)?;
    let own = home.reserve(taken)?;
    let foreign = match abroad.reserve(amount) {
        Ok(grant) => grant,
        Err(fault) => {
            home.settle(own).unwrap();
            return Err(fault);
        }
    };
    match home.settle(foreign) {
        Ok(()) => {
            // The other pool gets as much back as it lacks; then there is room for the pool's own grant again.
            let exchange = home.reserve(amount).unwrap();
            abroad.settle(exchange).unwrap();
            home.settle(own).unwrap();
            Ok(())
        }
        Err(Unsettled { fault, grant }) => {
            home.settle(own).unwrap();
            abroad.settle(grant).unwrap();
            Err(fault)
        }
    }
}
