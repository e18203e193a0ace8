// The opening, the calls, and lists of calls. Each call carries the law for one call.
ghost use Rattle.std.specs.Prelude.{IfOk, ◌≡◌, [], ◌∷◌, length, map, take, drop, min};
ghost use Rattle.terms.specs.Replies.{viewed};
ghost use Rattle.terms.specs.Systems.{signature_of, rules_of, system_of};
ghost use Rattle.job_calls.specs.declared.answer.Answer.TheVariants.{Stepped, Swept, Looked, Copied};
ghost use Rattle.job_calls.specs.Calls.{step_reply, sweep_reply, look_reply, copy_to_reply, performed, run, Asked.step, Asked.sweep, Asked.look, Asked.copy_out};
ghost use Rattle.job_calls.specs.Runs.{LawfulRun};
ghost use Rattle.jobs.specs.Asking.{asked};
ghost use Rattle.jobs.specs.Fulls.{state_in};
ghost use Rattle.terms.specs.Codes.{term_of};
ghost use Rattle.jobs.specs.FullOpenings.{full_reply, OpenTold, PlainOpened};

use crate::call::Call;
use crate::fault::OpenFault;
use crate::full::Full;
use crate::job::Job;
use algebras::{Algebra, review};
use job_calls::{Answer, JobFault, Look, Sweep};
use pools::Grant;
use terms::System;

impl Full {
    // Every rule is strict in the pile, and the grant covers the term's height.
    pub fn open<A: Algebra>(
        system: System,
        pile: &A,
        codes: &[u16],
        grant: &Grant,
    ) -> Result<Full, OpenFault>
        ensures value { viewed state_in result ≡ full_reply (A.means pile.now) (system_of system) codes.now grant.now }
        ensures means { OpenTold (A.means pile.now) (signature_of system) (rules_of system) codes.now grant.now.amount result }
        ensures plain { IfOk result (λ f. PlainOpened (state_in f) (term_of (signature_of system) codes.now)) }
    {
        let job = Job::open_short(system, codes, grant)?;
        review(pile, &system)?;
        let height = pile.measure(system.signature(), codes)?;
        if grant.amount() < height {
            return Err(OpenFault::BelowHeight);
        }
        Ok(Full { job })
    }

    // What can be read of it.
    pub fn job(&self) -> &Job
        ensures { result.now ≡ self.now.job }
    {
        &self.job
    }

    // A step by a rule number at a place.
    pub fn step(&mut self, grant: &Grant, rule: usize, place: usize) -> Result<(), JobFault>
        ensures value { (result, state_in self.new) ≡ step_reply (state_in self.old) grant.now.number rule place }
        ensures law { LawfulRun (state_in self.old) [] (step grant.now.number rule place ∷ []) record { answers = Stepped result ∷ []; memory = []; state = state_in self.new } }
    {
        self.job.step(grant, rule, place)
    }

    // Steps at first redexes, up to so many.
    pub fn sweep(&mut self, grant: &Grant, most: u64) -> Result<Sweep, JobFault>
        ensures value { (result, state_in self.new) ≡ sweep_reply (state_in self.old) grant.now.number most }
        ensures law { LawfulRun (state_in self.old) [] (sweep grant.now.number most ∷ []) record { answers = Swept result ∷ []; memory = []; state = state_in self.new } }
    {
        self.job.sweep(grant, most)
    }

    pub fn look(&self) -> Look
        ensures value { result ≡ look_reply (state_in self.now) }
        ensures law { LawfulRun (state_in self.now) [] (look ∷ []) record { answers = Looked result ∷ []; memory = []; state = state_in self.now } }
    {
        self.job.look()
    }

    // The term's codes, to the front of a memory; the answer is how many.
    pub fn copy_out(&self, out: &mut [u16]) -> Result<usize, JobFault>
        ensures value { (result, out.new) ≡ copy_to_reply (state_in self.now).codes (length out.old) out.old }
        ensures law { LawfulRun (state_in self.now) out.old (copy_out (length out.old) ∷ []) record { answers = Copied result ∷ []; memory = out.new; state = state_in self.now } }
    {
        self.job.copy_to(out, out.len())
    }

    // One call; a copy goes to the memory that is lent.
    pub fn perform(&mut self, call: Call, memory: &mut [u16]) -> Answer
        ensures value { record { answer = result; memory = memory.new; state = state_in self.new } ≡ performed (state_in self.old) memory.old (asked call.entry) }
        ensures law { LawfulRun (state_in self.old) memory.old (asked call.entry ∷ []) record { answers = result ∷ []; memory = memory.new; state = state_in self.new } }
    {
        match call {
            Call::Step(grant, rule, place) => Answer::Stepped(self.step(grant, rule, place)),
            Call::Sweep(grant, most) => Answer::Swept(self.sweep(grant, most)),
            Call::Look => Answer::Looked(self.look()),
            Call::CopyOut(room) => Answer::Copied(self.job.copy_to(memory, room)),
        }
    }

    // The calls of a list in turn, as many as there is memory for their answers; the answer is how many. Each names its own
    // grant, and copies go to the memory that is lent.
    pub fn replay(&mut self, calls: &[Call], answers: &mut [Answer], memory: &mut [u16]) -> usize
        ensures many { result ≡ min (length calls.now) (length answers.old) }
        ensures rest { drop result answers.new ≡ drop result answers.old }
        ensures value { record { answers = take result answers.new; memory = memory.new; state = state_in self.new } ≡ run (state_in self.old) memory.old (map asked (take result calls.now)) }
        ensures law { LawfulRun (state_in self.old) memory.old (map asked (take result calls.now)) record { answers = take result answers.new; memory = memory.new; state = state_in self.new } }
    {
        let count = calls.len().min(answers.len());
        let performed = &calls[..count];
        for (at, call) in performed.iter().enumerate() {
            answers[at] = self.perform(*call, memory);
        }
        count
    }
}
