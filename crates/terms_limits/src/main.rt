// Bad signatures, rules, systems and terms, and every limit from both sides: one line a try.
#![tactic(auto)]

mod shapes;
mod texts;

use std::io;

fn main(rt: HostRuntime) -> io::Result<()> {
    shapes::try_signatures(&rt)?;
    shapes::try_rules(&rt)?;
    shapes::try_systems(&rt)?;
    shapes::try_terms(&rt)
}
