// How a try is printed.
use std::io;
use terms::Malformed;

pub fn say_term(rt: &HostRuntime, what: &str, is_term: bool) -> io::Result<()> {
    println!(rt; "{what}: {is_term}")
}

pub fn say_made<T: Drop>(
    rt: &HostRuntime,
    what: &str,
    made: Result<T, Malformed>,
) -> io::Result<()> {
    match made {
        Ok(_) => println!(rt; "{what}: accepted"),
        Err(fault) => println!(rt; "{what}: {fault}"),
    }
}
