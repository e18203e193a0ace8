// The calls on a job.
ghost use Rattle.std.specs.Prelude.{◌≡◌, IfErr};
ghost use Rattle.terms.specs.Replies.{viewed};
ghost use Rattle.terms.specs.Systems.{system_of};
ghost use Rattle.rewriting.specs.Subjects.{codes_in};
ghost use Rattle.job_calls.specs.declared.fault.JobFault.TheVariants as fault;
ghost use Rattle.job_calls.specs.Calls.{advanced, step_reply, sweep_reply, look_reply, copy_reply, copy_to_reply};
ghost use Rattle.jobs.specs.Views.{state_of};
ghost use Rattle.jobs.specs.Openings.{short_reply, checked};

use crate::job::Job;
use job_calls::{End, JobFault, Look, Sweep};
use pools::Grant;
use resuming::Search;
use rewriting::Subject;
use terms::{Malformed, System};

impl Job {
    // Without a pile: nothing bounds its derivations, and it may be cut off.
    pub fn open_short(system: System, codes: &[u16], grant: &Grant) -> Result<Job, Malformed>
        ensures { viewed state_of result ≡ short_reply (system_of system) codes.now grant.now }
    {
        let subject = Subject::new(system, codes)?;
        Ok(Job {
            search: Search::new(subject),
            number: grant.number(),
            reserve: grant.amount(),
            count: 0,
        })
    }

    pub fn subject(&self) -> &Subject
        ensures { result.now ≡ self.now.search.subject }
    {
        self.search.subject()
    }

    fn check(&self, grant: &Grant) -> Result<(), JobFault>
        ensures { result ≡ checked (state_of self.now) grant.now.number }
    {
        if grant.number() != self.number {
            return Err(JobFault::OtherGrant);
        }
        Ok(())
    }

    // A step by a rule number at a place. What is refused leaves the job as it is.
    pub fn step(&mut self, grant: &Grant, rule: usize, place: usize) -> Result<(), JobFault>
        ensures { (result, state_of self.new) ≡ step_reply (state_of self.old) grant.now.number rule place }
    {
        self.check(grant)?;
        if self.count == self.reserve {
            self.search.subject().check_redex(rule, place)?;
            return Err(JobFault::Spent);
        }
        self.search.rewrite(rule, place)?;
        self.count += 1;
        Ok(())
    }

    // A step at the first redex, or why a sweep ends before it.
    fn advance(&mut self) -> Result<(), End>
        ensures next { viewed (λ _. state_of self.new) result ≡ advanced (state_of self.old) }
        ensures same { IfErr result (λ _. state_of self.new ≡ state_of self.old) }
    {
        let (place, rule) = self.search.seek().ok_or(End::Normal)?;
        if self.count == self.reserve {
            return Err(End::Spent);
        }
        if self.search.rewrite(rule, place).is_err() {
            return Err(End::TooLong);
        }
        self.count += 1;
        Ok(())
    }

    // Steps at first redexes, up to so many.
    pub fn sweep(&mut self, grant: &Grant, most: u64) -> Result<Sweep, JobFault>
        ensures { (result, state_of self.new) ≡ sweep_reply (state_of self.old) grant.now.number most }
    {
        self.check(grant)?;
        for steps in 0..most {
            if let Err(end) = self.advance() {
                return Ok(Sweep { end, steps });
            }
        }
        let end = match self.search.seek() {
            None => End::Normal,
            Some(_) => End::More,
        };
        Ok(Sweep { end, steps: most })
    }

    pub fn look(&self) -> Look
        ensures { result ≡ look_reply (state_of self.now) }
    {
        Look {
            first: self.search.first_redex(),
            size: self.subject().codes().len(),
            count: self.count,
            left: self.reserve - self.count,
        }
    }

    // The term's codes, to the front of a memory; the answer is how many.
    pub fn copy_out(&self, out: &mut [u16]) -> Result<usize, JobFault>
        ensures { (result, out.new) ≡ copy_reply (codes_in self.now.search.subject) out.old }
    {
        let codes = self.subject().codes();
        if out.len() < codes.len() {
            return Err(JobFault::ShortMemory);
        }
        out[..codes.len()].copy_from_slice(codes);
        Ok(codes.len())
    }

    // The same to so many first places.
    pub(crate) fn copy_to(&self, memory: &mut [u16], room: usize) -> Result<usize, JobFault>
        ensures { (result, memory.new) ≡ copy_to_reply (codes_in self.now.search.subject) room memory.old }
    {
        let room = room.min(memory.len());
        self.copy_out(&mut memory[..room])
    }
}
