// Reads commands from standard input, one to a line: a system, a pile and a start term, reservings and settlings, openings, and
// calls on the job. Prints what each comes to.
#![tactic(auto)]

mod calls;
mod command;
mod funds;
mod opened;
mod setting;

use calls::{answer_calls, read_calls};
use command::Command;
use funds::{answer_free, answer_pool, answer_pool_call, fresh_ledger, grant_of, settle_foreign};
use opened::Opened;
use pools::Ledger;
use setting::Setting;
use std::io;
use terms::MOST_TERM;

// What commands leave, but for the grants: these are the ledger's.
#[derive(Drop)]
struct Desk {
    setting: Setting,
    job: Option<Opened>,
    memory: [u16; 1024],
}

fn answer_open(
    rt: &HostRuntime,
    ledger: &Ledger,
    desk: &mut Desk,
    in_full: bool,
    number: u32,
) -> io::Result<()> {
    let Some(grant) = grant_of(ledger, number) else {
        return println!(rt; "not out");
    };
    match desk.setting.open(in_full, grant) {
        Ok(job) => {
            desk.job = Some(job);
            println!(rt; "opened")
        }
        Err(fault) => println!(rt; "{fault}"),
    }
}

fn answer_job(rt: &HostRuntime, ledger: &Ledger, desk: &mut Desk, line: &str) -> io::Result<()> {
    let Some(job) = desk.job.as_mut() else {
        return println!(rt; "no job");
    };
    match read_calls(rt.alloc(), ledger, line)? {
        Some(calls) => answer_calls(rt, job, calls.as_slice(), &mut desk.memory),
        None => println!(rt; "unreadable"),
    }
}

fn answer(rt: &HostRuntime, ledger: &mut Ledger, desk: &mut Desk, line: &str) -> io::Result<()> {
    match Command::read(line) {
        Command::Set(change) => match desk.setting.set(change) {
            Ok(()) => println!(rt; "set"),
            Err(fault) => println!(rt; "{fault}"),
        },
        Command::Pool(size, first) => answer_pool(rt, ledger, size, first),
        Command::PoolCall(call) => answer_pool_call(rt, ledger, call),
        Command::Foreign(amount) => match settle_foreign(amount) {
            Ok(()) => println!(rt; "settled"),
            Err(fault) => println!(rt; "{fault}"),
        },
        Command::Free => answer_free(rt, ledger),
        Command::Open(in_full, number) => answer_open(rt, ledger, desk, in_full, number),
        Command::Calls => answer_job(rt, ledger, desk, line),
    }
}

fn answer_lines(rt: &HostRuntime, ledger: &mut Ledger) -> io::Result<()> {
    let mut desk = Desk {
        setting: Setting::new(),
        job: None,
        memory: [0; MOST_TERM],
    };
    for line in rt.lines(rt.alloc()) {
        answer(rt, ledger, &mut desk, line?.as_str())?;
    }
    Ok(())
}

fn main(rt: HostRuntime) -> io::Result<()> {
    let Ok(mut ledger) = fresh_ledger(rt.alloc(), 0, 1) else {
        return Ok(());
    };
    let answered = answer_lines(&rt, &mut ledger);
    let pool = ledger.close();
    println!(&rt; "free {} of {}", pool.free(), pool.size())?;
    answered
}
