// How a try is printed.
use rewriting::RewriteFault;
use std::fmt::Display;
use std::io;

pub fn say_end(rt: &HostRuntime, what: &str, end: Option<usize>) -> io::Result<()> {
    match end {
        None => println!(rt; "{what}: none"),
        Some(end) => println!(rt; "{what}: {end}"),
    }
}

// An answer, or the refusal.
pub fn say_answer<T: Display + Drop>(
    rt: &HostRuntime,
    what: &str,
    answer: Result<T, RewriteFault>,
) -> io::Result<()> {
    match answer {
        Ok(answer) => println!(rt; "{what}: {answer}"),
        Err(fault) => println!(rt; "{what}: {fault}"),
    }
}
