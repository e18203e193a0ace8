// Calls on the job, several to a line with semicolons between them.
use crate::funds::grant_of;
use crate::opened::Opened;
use jobs::{Answer, Call, Look};
use pools::{Grant, Ledger};
use std::alloc::{AllocError, Global};
use std::io;

// There is memory for this many answers.
const MOST_CALLS: usize = 6;

fn long_number(word: Option<&str>) -> Option<u64> {
    word?.parse::<u64>().ok()
}

fn index(word: Option<&str>) -> Option<usize> {
    word?.parse::<usize>().ok()
}

// The grant of a number, if it is out.
fn lent<'a>(ledger: &'a Ledger, word: Option<&str>) -> Option<&'a Grant> {
    grant_of(ledger, word?.parse::<u32>().ok()?)
}

fn read_call<'a>(ledger: &'a Ledger, text: &str) -> Option<Call<'a>> {
    let mut words = text.split_whitespace();
    match words.next()? {
        "step" => Some(Call::Step(
            lent(ledger, words.next())?,
            index(words.next())?,
            index(words.next())?,
        )),
        "sweep" => Some(Call::Sweep(lent(ledger, words.next())?, long_number(words.next())?)),
        "look" => Some(Call::Look),
        "copy" => Some(Call::CopyOut(index(words.next())?)),
        _ => None,
    }
}

// None if one of them can't be read, or its grant is not out.
pub fn read_calls<'a>(
    alloc: Global,
    ledger: &'a Ledger,
    line: &str,
) -> Result<Option<Vec<Call<'a>>>, AllocError> {
    let mut calls = Vec::new(alloc);
    for text in line.split(';') {
        match read_call(ledger, text) {
            Some(call) => calls.push(call)?,
            None => return Ok(None),
        }
    }
    Ok(Some(calls))
}

fn print_look(rt: &HostRuntime, look: &Look) -> io::Result<()> {
    match look.first {
        Some((place, rule)) => print!(rt; "redex at {place} by {rule}")?,
        None => print!(rt; "normal")?,
    }
    println!(rt;
        ", size {}, count {}, left {}",
        look.size, look.count, look.left
    )
}

fn print_answer(rt: &HostRuntime, answer: &Answer) -> io::Result<()> {
    match answer {
        Answer::Stepped(Ok(())) => println!(rt; "stepped"),
        Answer::Stepped(Err(fault)) => println!(rt; "{fault}"),
        Answer::Swept(Ok(sweep)) => println!(rt; "swept {}, {}", sweep.steps, sweep.end),
        Answer::Swept(Err(fault)) => println!(rt; "{fault}"),
        Answer::Looked(look) => print_look(rt, look),
        Answer::Copied(Ok(count)) => println!(rt; "copied {count}"),
        Answer::Copied(Err(fault)) => println!(rt; "{fault}"),
    }
}

// The first codes of the memory for copies, and the sum of all.
fn print_memory(rt: &HostRuntime, memory: &[u16]) -> io::Result<()> {
    print!(rt; "memory")?;
    for code in memory.iter().take(8) {
        print!(rt; " {code}")?;
    }
    let sum = memory
        .iter()
        .fold(0_u64, |sum, code| sum.wrapping_add(u64::from(*code)));
    println!(rt; ", sum {sum}")
}

pub fn answer_calls(
    rt: &HostRuntime,
    job: &mut Opened,
    calls: &[Call],
    memory: &mut [u16],
) -> io::Result<()> {
    let mut answers = [Answer::Stepped(Ok(())); MOST_CALLS];
    let count = job.replay(calls, &mut answers, memory);
    for answer in answers.iter().take(count) {
        print_answer(rt, answer)?;
    }
    if calls
        .iter()
        .take(count)
        .any(|call| matches!(call, Call::CopyOut(_)))
    {
        print_memory(rt, memory)?;
    }
    Ok(())
}
