// A job, opened short or in full.
use jobs::{Answer, Call, Full, Job};

#[derive(Drop)]
pub enum Opened {
    Short(Job),
    Full(Full),
}

// One call on a job that was opened short.
fn perform_short(job: &mut Job, call: Call, memory: &mut [u16]) -> Answer {
    match call {
        Call::Step(grant, rule, place) => Answer::Stepped(job.step(grant, rule, place)),
        Call::Sweep(grant, most) => Answer::Swept(job.sweep(grant, most)),
        Call::Look => Answer::Looked(job.look()),
        Call::CopyOut(room) => {
            let room = room.min(memory.len());
            Answer::Copied(job.copy_out(&mut memory[..room]))
        }
    }
}

fn replay_short(
    job: &mut Job,
    calls: &[Call],
    answers: &mut [Answer],
    memory: &mut [u16],
) -> usize {
    let count = calls.len().min(answers.len());
    for (answer, call) in answers.iter_mut().zip(calls) {
        *answer = perform_short(job, *call, memory);
    }
    count
}

impl Opened {
    // As many of the calls as there is memory for their answers; the answer is how many.
    pub fn replay(&mut self, calls: &[Call], answers: &mut [Answer], memory: &mut [u16]) -> usize {
        match self {
            Opened::Short(job) => replay_short(job, calls, answers, memory),
            Opened::Full(job) => job.replay(calls, answers, memory),
        }
    }
}
