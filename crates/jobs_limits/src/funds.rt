// The pool: its grants are kept in a ledger, and lent to the job from there.
use pools::{Grant, Ledger, MOST_STEPS, Pool, PoolCall, PoolFault, PoolReply, Unsettled};
use std::alloc::Global;
use std::{io, mem};

// A ledger of a pool that is made with these numbers.
pub fn fresh_ledger(alloc: Global, size: u64, first: u32) -> Result<Ledger, PoolFault> {
    match Ledger::new(alloc, Pool::new(size, first)?) {
        Ok(ledger) => Ok(ledger),
        Err(_pool) => unreachable!(),
    }
}

pub fn grant_of(ledger: &Ledger, number: u32) -> Option<&Grant> {
    ledger
        .grants()
        .iter()
        .find(|grant| grant.number() == number)
}

// The pool before is closed, whatever of it is out.
pub fn answer_pool(rt: &HostRuntime, ledger: &mut Ledger, size: u64, first: u32) -> io::Result<()> {
    match fresh_ledger(rt.alloc(), size, first) {
        Ok(made) => {
            let before = mem::replace(ledger, made).close();
            println!(rt;
                "pool {size}, and before {} of {} free",
                before.free(),
                before.size()
            )
        }
        Err(fault) => println!(rt; "{fault}"),
    }
}

pub fn answer_pool_call(rt: &HostRuntime, ledger: &mut Ledger, call: PoolCall) -> io::Result<()> {
    for reply in ledger.perform(rt.alloc(), &[call])?.as_slice() {
        match reply {
            PoolReply::Given(number) => println!(rt; "given {number}")?,
            PoolReply::Settled => println!(rt; "settled")?,
            PoolReply::NotOut => println!(rt; "not out")?,
            PoolReply::Refused(fault) => println!(rt; "{fault}")?,
        }
    }
    Ok(())
}

pub fn answer_free(rt: &HostRuntime, ledger: &Ledger) -> io::Result<()> {
    let pool = ledger.pool();
    println!(rt; "free {} of {}", pool.free(), pool.size())
}

// What a pool of 10 steps that is all free answers to a grant of another pool.
pub fn settle_foreign(amount: u64) -> Result<(), PoolFault> {
    let mut home = Pool::new(10, 1)?;
    let mut abroad = Pool::new(MOST_STEPS, 1)?;
    let grant = abroad.reserve(amount)?;
    match home.settle(grant) {
        Ok(()) => Ok(()),
        Err(Unsettled { fault, grant }) => {
            abroad.settle(grant).unwrap();
            Err(fault)
        }
    }
}
