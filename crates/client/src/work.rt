// What either client does with its job.
use algebras::Empty;
use jobs::{Full, JobFault, Sweep};
use piles::{Part, Pile, pile_of};
use pools::Grant;
use worked_parts::{WorkedPart, part};

// The first redex at the look, the sweep behind the step there, and the codes that were copied out at last.
#[derive(Drop)]
pub struct Outcome {
    pub first: Option<(usize, usize)>,
    pub sweep: Sweep,
    pub codes: [u16; 1024],
    pub copied: usize,
}

// Each rule of addition is strict in it.
pub fn addition_pile() -> Pile {
    pile_of(
        part(WorkedPart::First),
        part(WorkedPart::Second),
        Part::Missing(Empty {}),
        Part::Missing(Empty {}),
    )
}

// A step at the first redex, as the look shows it.
pub fn step_once(job: &mut Full, grant: &Grant) -> Result<Option<(usize, usize)>, JobFault> {
    let first = job.look().first;
    if let Some((place, rule)) = first {
        job.step(grant, rule, place)?;
    }
    Ok(first)
}

// The job's codes behind what was done.
pub fn outcome_of(
    job: &Full,
    first: Option<(usize, usize)>,
    sweep: Sweep,
) -> Result<Outcome, JobFault> {
    let mut codes = [0; 1024];
    let copied = job.copy_out(&mut codes)?;
    Ok(Outcome {
        first,
        sweep,
        codes,
        copied,
    })
}
