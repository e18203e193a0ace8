// A job: a term and its system, its grant's number and amount, and how many steps were made.
ghost use Rattle.std.specs.Prelude.{◌≤◌};

use resuming::Search;

mod calls;

#[derive(Drop)]
pub struct Job {
    search: Search,
    number: u32,
    // The grant's amount.
    reserve: u64,
    count: u64,
    ghost within: { count ≤ reserve },
}
