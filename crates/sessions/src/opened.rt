// A job, opened in full or short.
ghost use Rattle.std.specs.Prelude.{◌≡◌};
ghost use Rattle.terms.specs.Replies.{viewed};
ghost use Rattle.jobs.specs.Views.{state_of};
ghost use Rattle.job_calls.specs.Calls.{copy_to_reply, step_reply, sweep_reply};
ghost use Rattle.sessions.specs.Settings.{setting_of};
ghost use Rattle.sessions.specs.Sessions.{opened_of, held_in, answered_in};
ghost use Rattle.sessions.specs.Jobs.{opened_with};

use crate::fault::CommandFault;
use crate::setting::Setting;
use algebras::Algebra;
use commands::Opening;
use jobs::{Full, Job, JobFault, Sweep};
use pools::Grant;
use refusals::Refusal;

#[derive(Drop)]
pub enum Opened {
    Full(Full),
    Short(Job),
}

impl Opened {
    pub fn open<A: Algebra>(
        setting: &Setting<A>,
        opening: Opening,
        codes: &[u16],
        grant: &Grant,
    ) -> Result<Opened, CommandFault>
        ensures { viewed opened_of result ≡ opened_with (setting_of A.means setting.now) opening codes.now grant.now }
    {
        match opening {
            Opening::Full => {
                let full = Full::open(setting.system, &setting.pile, codes, grant);
                Ok(Opened::Full(full.map_err(|fault| Refusal::from(fault))?))
            }
            Opening::Short => {
                let short = Job::open_short(setting.system, codes, grant);
                Ok(Opened::Short(short.map_err(|fault| Refusal::from(fault))?))
            }
        }
    }

    // What can be read of it.
    pub fn job(&self) -> &Job
        ensures { state_of result.now ≡ held_in (opened_of self.now) }
    {
        match self {
            Opened::Full(full) => full.job(),
            Opened::Short(job) => job,
        }
    }

    // The term's codes, to so many first places of a memory.
    pub fn copy_to(&self, memory: &mut [u16], room: usize) -> Result<usize, JobFault>
        ensures { (result, memory.new) ≡ copy_to_reply (held_in (opened_of self.now)).codes room memory.old }
    {
        let room = room.min(memory.len());
        self.job().copy_out(&mut memory[..room])
    }

    pub fn step(&mut self, grant: &Grant, rule: usize, place: usize) -> Result<(), JobFault>
        ensures { (result, opened_of self.new) ≡ answered_in (opened_of self.old) (step_reply (held_in (opened_of self.old)) grant.now.number rule place) }
    {
        match self {
            Opened::Full(full) => full.step(grant, rule, place),
            Opened::Short(job) => job.step(grant, rule, place),
        }
    }

    pub fn sweep(&mut self, grant: &Grant, most: u64) -> Result<Sweep, JobFault>
        ensures { (result, opened_of self.new) ≡ answered_in (opened_of self.old) (sweep_reply (held_in (opened_of self.old)) grant.now.number most) }
    {
        match self {
            Opened::Full(full) => full.sweep(grant, most),
            Opened::Short(job) => job.sweep(grant, most),
        }
    }
}
