// The answers of the calls on a job.
ghost use Rattle.std.specs.Prelude.{Some};
ghost use Rattle.job_calls.specs.Words.{end_word};

use crate::fault::JobFault;
use std::fmt;

// Why a sweep ended.
#[derive(Clone, Copy, PartialEq, Eq, Debug)]
pub enum End {
    // The term is a normal form.
    Normal,
    // As many steps were made as were asked for.
    More,
    // The reserve is used up.
    Spent,
    // The next term would have more than 1,024 codes.
    TooLong,
}

// Ends that are refusals of a step show as the number of that refusal.
impl fmt::Display for End {
    ghost output = { λ end. Some (end_word end) };

    fn fmt<W: fmt::Write>(&self, f: &mut fmt::Formatter<W>) -> fmt::Result {
        f.write_str(match self {
            End::Normal => "normal",
            End::More => "more",
            End::Spent => "44",
            End::TooLong => "42",
        })
    }
}

// How a sweep ended, and how many steps it made.
#[derive(Clone, Copy, PartialEq, Eq, Debug)]
pub struct Sweep {
    pub end: End,
    pub steps: u64,
}

// The place and the rule of the first redex together, or that there is none; the term's size, how many steps the job has
// made, and how many are left of its reserve.
#[derive(Clone, Copy, PartialEq, Eq, Debug)]
pub struct Look {
    pub first: Option<(usize, usize)>,
    pub size: usize,
    pub count: u64,
    pub left: u64,
}

#[derive(Clone, Copy, PartialEq, Eq, Debug)]
pub enum Answer {
    Stepped(Result<(), JobFault>),
    Swept(Result<Sweep, JobFault>),
    Looked(Look),
    Copied(Result<usize, JobFault>),
}
