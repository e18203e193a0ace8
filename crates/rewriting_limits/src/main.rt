// Bad places, matches and rewrites, and every limit from both sides: one line a try.
#![tactic(auto)]

mod rewrites;
mod texts;

use std::io;

fn main(rt: HostRuntime) -> io::Result<()> {
    rewrites::try_places(&rt)?;
    rewrites::try_matches(&rt)?;
    rewrites::try_rewrites(&rt)
}
