// Reads calls on a pool from standard input, one to a line, and prints what each comes to.
#![tactic(auto)]

mod command;
mod foreign;

use command::Command;
use foreign::settle_foreign;
use pools::{Ledger, Pool, PoolCall, PoolFault, PoolReply};
use std::alloc::Global;
use std::{io, mem};

// A ledger of a pool that is made with these numbers.
fn open(alloc: Global, size: u64, first: u32) -> Result<Ledger, PoolFault> {
    match Ledger::new(alloc, Pool::new(size, first)?) {
        Ok(ledger) => Ok(ledger),
        Err(_pool) => unreachable!(),
    }
}

// The pool before is closed, whatever of it is out.
fn answer_pool(rt: &HostRuntime, ledger: &mut Ledger, size: u64, first: u32) -> io::Result<()> {
    match open(rt.alloc(), size, first) {
        Ok(made) => {
            let before = mem::replace(ledger, made).close();
            println!(rt;
                "pool {size}, and before {} of {} free",
                before.free(),
                before.size()
            )
        }
        Err(fault) => println!(rt; "{fault}"),
    }
}

fn answer_call(rt: &HostRuntime, ledger: &mut Ledger, call: PoolCall) -> io::Result<()> {
    for reply in ledger.perform(rt.alloc(), &[call])?.as_slice() {
        match reply {
            PoolReply::Given(number) => println!(rt; "given {number}")?,
            PoolReply::Settled => println!(rt; "settled")?,
            PoolReply::NotOut => println!(rt; "not out")?,
            PoolReply::Refused(fault) => println!(rt; "{fault}")?,
        }
    }
    Ok(())
}

fn answer_free(rt: &HostRuntime, ledger: &Ledger) -> io::Result<()> {
    let pool = ledger.pool();
    print!(rt; "free {} of {}", pool.free(), pool.size())?;
    for grant in ledger.grants() {
        print!(rt; ", {} in {}", grant.amount(), grant.number())?;
    }
    println!(rt; "")
}

fn answer(rt: &HostRuntime, ledger: &mut Ledger, line: &str) -> io::Result<()> {
    match Command::read(line) {
        Some(Command::Pool(size, first)) => answer_pool(rt, ledger, size, first),
        Some(Command::Call(call)) => answer_call(rt, ledger, call),
        Some(Command::Free) => answer_free(rt, ledger),
        Some(Command::Foreign(size, taken, amount)) => match settle_foreign(size, taken, amount) {
            Ok(()) => println!(rt; "settled"),
            Err(fault) => println!(rt; "{fault}"),
        },
        None => println!(rt; "unreadable"),
    }
}

fn answer_lines(rt: &HostRuntime, ledger: &mut Ledger) -> io::Result<()> {
    for line in rt.lines(rt.alloc()) {
        answer(rt, ledger, line?.as_str())?;
    }
    Ok(())
}

fn main(rt: HostRuntime) -> io::Result<()> {
    let Ok(mut ledger) = open(rt.alloc(), 0, 1) else {
        return Ok(());
    };
    let answered = answer_lines(&rt, &mut ledger);
    let _pool = ledger.close();
    answered
}
