// The commands.
ghost use Rattle.std.specs.Prelude.{◌≡◌, None, IfOk, OnErr, option_map, option_copied};
ghost use Rattle.terms.specs.Replies.{viewed};
ghost use Rattle.pools.specs.Views.{state_of};
ghost use Rattle.pools.specs.Ledgers.{ledger_of};
ghost use Rattle.pools.specs.Runs.{closed};
ghost use Rattle.sessions.specs.Settings.{setting_of};
ghost use Rattle.sessions.specs.Sessions.{session_of};
ghost use Rattle.sessions.specs.Pools.{granted, pool_answer, told, call_answer, free_answer};
ghost use Rattle.sessions.specs.Jobs.{open_answer, step_answer, sweep_answer, look_answer, copy_answer};
ghost use Rattle.sessions.specs.Commands.{performing};
ghost use Rattle.sessions.specs.Laws.{LawfulCommand};

use crate::fault::CommandFault;
use crate::opened::Opened;
use crate::reply::Reply;
use crate::session::Session;
use crate::setting::Setting;
use algebras::Algebra;
use commands::{Command, Opening};
use pools::{Grant, Ledger, Pool, PoolCall, PoolReply};
use refusals::Refusal;
use std::alloc::{AllocError, Global};

// The grant of a number, if there is a pool and it is out.
fn granted(ledger: Option<&Ledger>, number: u32) -> Result<&Grant, CommandFault>
    ensures { viewed (λ g. g.now) result ≡ granted (option_map (λ l. ledger_of l.now) ledger.entry) number }
{
    let ledger = ledger.ok_or(CommandFault::NoPool)?;
    ledger.grant(number).ok_or(CommandFault::NoGrant)
}

// What a call on a pool comes to; a grant has the amount that was asked for.
fn told(reply: PoolReply, amount: u64) -> Result<Reply, CommandFault>
    ensures { result ≡ told amount reply }
{
    match reply {
        PoolReply::Given(number) => Ok(Reply::Granted(number, amount)),
        PoolReply::Settled => Ok(Reply::Settled),
        PoolReply::NotOut => Err(CommandFault::NoGrant),
        PoolReply::Refused(fault) => Err(CommandFault::Refused(Refusal::from(fault))),
    }
}

impl Session {
    // Without a pool and a job.
    pub fn new() -> Session
        ensures { session_of result ≡ record { ledger = None; job = None } }
    {
        Session {
            ledger: None,
            job: None,
        }
    }

    // Another pool takes the place of one whose grants are all settled.
    fn pool(&mut self, alloc: Global, size: u64, first: u32) -> Result<Reply, CommandFault>
        ensures { (result, session_of self.new) ≡ pool_answer (session_of self.old) size first }
    {
        if let Some(ledger) = self.ledger.as_ref()
            && !ledger.grants().is_empty()
        {
            return Err(CommandFault::GrantsOut);
        }
        let pool = Pool::new(size, first).map_err(|fault| Refusal::from(fault))?;
        let Ok(made) = Ledger::new(alloc, pool) else {
            unreachable!();
        };
        if let Some(before) = self.ledger.replace(made) {
            let _pool = before.close();
        }
        Ok(Reply::Pool(size))
    }

    fn call(
        &mut self,
        call: PoolCall,
        amount: u64,
    ) -> Result<Result<Reply, CommandFault>, AllocError>
        ensures value { IfOk result (λ r. (r, session_of self.new) ≡ call_answer (session_of self.old) call amount (session_of self.old).ledger) }
        ensures unchanged { OnErr result (session_of self.new ≡ session_of self.old) }
    {
        let Some(ledger) = self.ledger.as_mut() else {
            return Ok(Err(CommandFault::NoPool));
        };
        let reply = ledger.call(call)?;
        Ok(told(reply, amount))
    }

    fn free(&self) -> Result<Reply, CommandFault>
        ensures { result ≡ free_answer (session_of self.now).ledger }
    {
        let ledger = self.ledger.as_ref().ok_or(CommandFault::NoPool)?;
        Ok(Reply::Free(ledger.pool().free(), ledger.pool().size()))
    }

    // A new job takes the place of the last one only if it opens.
    fn open<A: Algebra>(
        &mut self,
        setting: &Setting<A>,
        opening: Opening,
        number: u32,
        text: Option<&[u8]>,
    ) -> Result<Reply, CommandFault>
        ensures { (result, session_of self.new) ≡ open_answer (setting_of A.means setting.now) (session_of self.old) opening number (option_copied text.entry) }
    {
        let grant = granted(self.ledger.as_ref(), number)?;
        let codes = setting.term(text)?;
        self.job = Some(Opened::open(setting, opening, codes.as_slice(), grant)?);
        Ok(Reply::Opened)
    }

    fn step(&mut self, number: u32, rule: usize, place: usize) -> Result<Reply, CommandFault>
        ensures { (result, session_of self.new) ≡ step_answer (session_of self.old) number rule place }
    {
        let grant = granted(self.ledger.as_ref(), number)?;
        let job = self.job.as_mut().ok_or(CommandFault::NoJob)?;
        let stepped = job.step(grant, rule, place);
        stepped.map_err(|fault| Refusal::from(fault))?;
        Ok(Reply::Stepped)
    }

    fn sweep(&mut self, number: u32, most: u64) -> Result<Reply, CommandFault>
        ensures { (result, session_of self.new) ≡ sweep_answer (session_of self.old) number most }
    {
        let grant = granted(self.ledger.as_ref(), number)?;
        let job = self.job.as_mut().ok_or(CommandFault::NoJob)?;
        let swept = job.sweep(grant, most);
        Ok(Reply::Swept(swept.map_err(|fault| Refusal::from(fault))?))
    }

    fn look(&self) -> Result<Reply, CommandFault>
        ensures { result ≡ look_answer (session_of self.now).job }
    {
        let job = self.job.as_ref().ok_or(CommandFault::NoJob)?;
        Ok(Reply::Looked(job.job().look()))
    }

    // The codes of the job's term, to the first places of a memory, up to so many.
    fn copy(&self, memory: &mut [u16], room: usize) -> Result<usize, CommandFault>
        ensures { (result, memory.new) ≡ copy_answer (session_of self.now).job room memory.old }
    {
        let job = self.job.as_ref().ok_or(CommandFault::NoJob)?;
        let copied = job.copy_to(memory, room);
        Ok(copied.map_err(|fault| Refusal::from(fault))?)
    }

    fn answer<A: Algebra>(
        &mut self,
        alloc: Global,
        setting: &Setting<A>,
        command: Command,
        memory: &mut [u16],
    ) -> Result<Result<Reply, CommandFault>, AllocError>
        ensures value { IfOk result (λ r. record { reply = r; memory = memory.new; session = session_of self.new } ≡ performing (setting_of A.means setting.now) (session_of self.old) memory.old command.entry) }
        ensures unchanged { OnErr result ((session_of self.new ≡ session_of self.old) × (memory.new ≡ memory.old)) }
    {
        match command {
            Command::Measure(text) => Ok(setting.measure(text)),
            Command::Compare(rule) => Ok(setting.compare(rule)),
            Command::Ceiling(size) => Ok(setting.ceiling(size)),
            Command::Pool(size, first) => Ok(self.pool(alloc, size, first)),
            Command::Reserve(amount) => self.call(PoolCall::Reserve(amount), amount),
            Command::Settle(number) => self.call(PoolCall::Settle(number), 0),
            Command::Free => Ok(self.free()),
            Command::Open(opening, number, text) => Ok(self.open(setting, opening, number, text)),
            Command::Step(number, rule, place) => Ok(self.step(number, rule, place)),
            Command::Sweep(number, most) => Ok(self.sweep(number, most)),
            Command::Look => Ok(self.look()),
            Command::Copy(room) => Ok(self.copy(memory, room).map(Reply::Copied)),
            Command::Term => Ok(self.copy(memory, memory.len()).map(Reply::Term)),
            Command::Help => Ok(Ok(Reply::Help)),
        }
    }

    // One command. A refused one leaves everything as it is; without memory for a grant more it is not performed.
    pub fn perform<A: Algebra>(
        &mut self,
        alloc: Global,
        setting: &Setting<A>,
        command: Command,
        memory: &mut [u16],
    ) -> Result<Result<Reply, CommandFault>, AllocError>
        ensures value { IfOk result (λ r. record { reply = r; memory = memory.new; session = session_of self.new } ≡ performing (setting_of A.means setting.now) (session_of self.old) memory.old command.entry) }
        ensures unchanged { OnErr result ((session_of self.new ≡ session_of self.old) × (memory.new ≡ memory.old)) }
        ensures law { IfOk result (λ r. LawfulCommand (setting_of A.means setting.now) (session_of self.old) memory.old command.entry record { reply = r; memory = memory.new; session = session_of self.new }) }
    {
        self.answer(alloc, setting, command, memory)
    }

    // Settles all that is out, and hands the pool back, if there is one: all of it is free.
    pub fn close(self) -> Option<Pool>
        ensures { option_map state_of result ≡ option_map closed (session_of self).ledger }
    {
        let Session { ledger, job: _ } = self;
        match ledger {
            Some(ledger) => Some(ledger.close()),
            None => None,
        }
    }
}
