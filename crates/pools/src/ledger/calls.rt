// The calls on a ledger.
ghost use Rattle.std.specs.Prelude.{◌≡◌, ◌<◌, ◌≤◌, ◌+◌, [], ◌∷◌, find, option_copied, length, vec_len, vec_capacity, IfOk, OnErr, AllPairs, MatchResult, position};
ghost use Rattle.pools.specs.Views.{state_of};
ghost use Rattle.pools.specs.Runs.{performing, run, closed};
ghost use Rattle.pools.specs.Grants.{number_of, has_number};
ghost use Rattle.pools.specs.Ledgers.{ledger_of};
ghost use Rattle.pools.specs.RunLaws.{Lawful};

use crate::grant::Grant;
use crate::ledger::{Ledger, PoolCall, PoolReply};
use crate::pool::Pool;
use std::alloc::{AllocError, Global};

// Where the first grant of a number stands.
fn place_of(grants: &[Grant], number: u32) -> Option<usize>
    ensures { result ≡ position (has_number number) grants.now }
{
    grants.iter().position(|grant| grant.number() == number)
}

impl Ledger {
    // Of a pool that is all free; any other is handed back.
    pub fn new(alloc: Global, pool: Pool) -> Result<Ledger, Pool>
        ensures { MatchResult result (λ l. ledger_of l ≡ record { pool = state_of pool; out = [] }) (λ p. (p ≡ pool) × ((state_of p).free < (state_of p).size)) }
    {
        if pool.free() < pool.size() {
            return Err(pool);
        }
        Ok(Ledger {
            pool,
            out: Vec::new(alloc),
        })
    }

    pub fn pool(&self) -> &Pool
        ensures { state_of result.now ≡ (ledger_of self.now).pool }
    {
        &self.pool
    }

    // The grants that are out, in the order in which they were given.
    pub fn grants(&self) -> &[Grant]
        ensures value { result.now ≡ (ledger_of self.now).out }
        ensures numbered { AllPairs (λ g h. number_of g < number_of h) result.now }
    {
        self.out.as_slice()
    }

    // The one of a number, if it is out.
    pub fn grant(&self, number: u32) -> Option<&Grant>
        ensures { option_copied result ≡ find (has_number number) (ledger_of self.now).out }
    {
        self.grants().iter().find(|grant| grant.number() == number)
    }

    fn reserve(&mut self, amount: u64) -> PoolReply
        requires { vec_len self.old.out < vec_capacity self.old.out }
        ensures value { (result, ledger_of self.new) ≡ performing (ledger_of self.old) (PoolCall.Reserve amount) }
        ensures len { vec_len self.new.out ≤ vec_len self.old.out + 1 }
        ensures capacity { vec_capacity self.old.out ≤ vec_capacity self.new.out }
    {
        match self.pool.reserve(amount) {
            Err(fault) => PoolReply::Refused(fault),
            Ok(grant) => {
                let number = grant.number();
                self.out.push(grant).unwrap();
                PoolReply::Given(number)
            }
        }
    }

    fn settle(&mut self, number: u32) -> PoolReply
        ensures value { (result, ledger_of self.new) ≡ performing (ledger_of self.old) (PoolCall.Settle number) }
        ensures len { vec_len self.new.out ≤ vec_len self.old.out }
        ensures capacity { vec_capacity self.old.out ≤ vec_capacity self.new.out }
    {
        let Some(at) = place_of(self.grants(), number) else {
            return PoolReply::NotOut;
        };
        let grant = self.out.remove(at);
        self.pool.settle(grant).unwrap();
        PoolReply::Settled
    }

    fn step(&mut self, call: PoolCall) -> PoolReply
        requires { vec_len self.old.out < vec_capacity self.old.out }
        ensures value { (result, ledger_of self.new) ≡ performing (ledger_of self.old) call }
        ensures len { vec_len self.new.out ≤ vec_len self.old.out + 1 }
        ensures capacity { vec_capacity self.old.out ≤ vec_capacity self.new.out }
    {
        match call {
            PoolCall::Reserve(amount) => self.reserve(amount),
            PoolCall::Settle(number) => self.settle(number),
        }
    }

    // One call. Without memory for a grant more it is not performed.
    pub fn call(&mut self, call: PoolCall) -> Result<PoolReply, AllocError>
        ensures value { IfOk result (λ r. (r, ledger_of self.new) ≡ performing (ledger_of self.old) call) }
        ensures unchanged { OnErr result (ledger_of self.new ≡ ledger_of self.old) }
        ensures means { IfOk result (λ r. Lawful (ledger_of self.old) (call ∷ []) (r ∷ []) (ledger_of self.new)) }
    {
        self.out.try_reserve(1)?;
        Ok(self.step(call))
    }

    // Performs the calls in turn, and answers each. Memory for all is set aside first: where there is none, none is performed.
    pub fn perform(
        &mut self,
        alloc: Global,
        calls: &[PoolCall],
    ) -> Result<Vec<PoolReply>, AllocError>
        ensures value { IfOk result (λ r. (r.items, ledger_of self.new) ≡ run (ledger_of self.old) calls.now) }
        ensures unchanged { OnErr result (ledger_of self.new ≡ ledger_of self.old) }
        ensures means { IfOk result (λ r. Lawful (ledger_of self.old) calls.now r.items (ledger_of self.new)) }
    {
        let mut replies = Vec::with_capacity(alloc, calls.len())?;
        self.out.try_reserve(calls.len())?;
        for call in calls {
            let reply = self.step(*call);
            replies.push(reply).unwrap();
        }
        Ok(replies)
    }

    // Settles all that is out, and hands the pool back: all of it is free.
    pub fn close(self) -> Pool
        ensures { state_of result ≡ closed (ledger_of self) }
    {
        let Ledger { mut pool, mut out } = self;
        while let Some(grant) = out.pop() {
            pool.settle(grant).unwrap();
        }
        out.destroy_empty();
        pool
    }
}
