// What a session asks about: it stays the same throughout.
ghost use Rattle.std.specs.Prelude.{◌≡◌, option_copied};
ghost use Rattle.terms.specs.Replies.{viewed};
ghost use Rattle.bounded.specs.Items.{items};
ghost use Rattle.sessions.specs.Settings.{setting_of, asked_term};
ghost use Rattle.sessions.specs.Queries.{measure_answer, compare_answer, ceiling_answer};

use crate::fault::CommandFault;
use crate::reply::Reply;
use algebras::Algebra;
use bounded::ArrayVec;
use refusals::Refusal;
use terms::System;
use texts::read_term;
use vocabulary::Names;

// A system with its names, a pile, and a start term's codes.
#[derive(Drop)]
pub struct Setting<A> {
    pub names: Names,
    pub system: System,
    pub pile: A,
    pub start: ArrayVec<u16, 1024>,
}

impl<A: Algebra> Setting<A> {
    // The codes of a term that is written out, or of the start term.
    pub fn term(&self, text: Option<&[u8]>) -> Result<ArrayVec<u16, 1024>, CommandFault>
        ensures { viewed items result ≡ asked_term (setting_of A.means self.now) (option_copied text.entry) }
    {
        match text {
            Some(text) => Ok(read_term(&self.names, text).map_err(|fault| Refusal::from(fault))?),
            None => Ok(self.start),
        }
    }

    pub fn measure(&self, text: Option<&[u8]>) -> Result<Reply, CommandFault>
        ensures { result ≡ measure_answer (setting_of A.means self.now) (option_copied text.entry) }
    {
        let codes = self.term(text)?;
        let measured = self.pile.measure(self.system.signature(), codes.as_slice());
        Ok(Reply::Height(measured.map_err(|fault| Refusal::from(fault))?))
    }

    pub fn compare(&self, number: usize) -> Result<Reply, CommandFault>
        ensures { result ≡ compare_answer (setting_of A.means self.now) number }
    {
        let rule = self.system.rules().get(number).ok_or(CommandFault::NoRule)?;
        let order = self
            .pile
            .compare(self.system.signature(), rule.left(), rule.right());
        Ok(Reply::Order(order.map_err(|fault| Refusal::from(fault))?))
    }

    pub fn ceiling(&self, size: usize) -> Result<Reply, CommandFault>
        ensures { result ≡ ceiling_answer (setting_of A.means self.now) size }
    {
        let ceiling = self.pile.ceiling(size);
        Ok(Reply::Ceiling(ceiling.map_err(|fault| Refusal::from(fault))?))
    }
}
