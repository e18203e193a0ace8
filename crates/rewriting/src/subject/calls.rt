// The calls on a subject.
ghost use Rattle.std.specs.Prelude.{◌≡◌, ◌<◌, length, is_ok, Decides};
ghost use Rattle.terms.specs.Codes.{sub_at};
ghost use Rattle.terms.specs.Steps.{Normal, FirstRedex};
ghost use Rattle.terms.specs.Systems.{signature_of};
ghost use Rattle.terms.specs.Replies.{viewed};
ghost use Rattle.terms.specs.Laws.{Reading};
ghost use Rattle.rewriting.specs.Searching.{first_redex, lowest_rule as lowest_rule_of};
ghost use Rattle.rewriting.specs.Replies.{rewritten, redex_of, answer, codes_after};
ghost use Rattle.rewriting.specs.Subjects.{arities_in, rules_in, codes_in, term_in, opened, subject_reply};
ghost use Rattle.rewriting.specs.Laws.{RedexTold, Rewrites};

use crate::fault::RewriteFault;
use crate::place::Place;
use crate::subject::Subject;
use bounded::ArrayVec;
use terms::{Malformed, System};

impl Subject {
    // A term of at most 1,024 codes over the system's signature.
    pub fn new(system: System, codes: &[u16]) -> Result<Subject, Malformed>
        ensures value { viewed opened result ≡ subject_reply system codes.now }
        ensures means { Decides (is_ok result) (Reading (signature_of system) codes.now) }
    {
        if !system.signature().is_term(codes) {
            return Err(Malformed::Term);
        }
        let term = ArrayVec::from_slice(0, codes).map_err(|_| Malformed::Term)?;
        Ok(Subject {
            system,
            term,
            next: ArrayVec::new(0),
        })
    }

    pub fn system(&self) -> &System
        ensures { result.now ≡ self.now.system }
    {
        &self.system
    }

    pub fn codes(&self) -> &[u16]
        ensures { result.now ≡ codes_in self.now }
    {
        self.term.as_slice()
    }

    // The lowest rule that matches at a place.
    fn lowest_rule(&self, at: usize) -> Option<usize>
        requires { at < length (codes_in self.now) }
        ensures { result ≡ lowest_rule_of (rules_in self.now) (sub_at (arities_in self.now) (codes_in self.now) at) }
    {
        let place = Place::inside(self.system.signature(), self.codes(), at)?;
        place.lowest_rule(self.system.rules())
    }

    // The place and the rule of the first redex together; none at a normal form.
    pub fn first_redex(&self) -> Option<(usize, usize)>
        ensures value { result ≡ first_redex (arities_in self.now) (rules_in self.now) (codes_in self.now) }
        ensures means { FirstRedex (rules_in self.now) (term_in self.now) result }
    {
        (0..self.codes().len()).find_map(|at| self.lowest_rule(at).map(|rule| (at, rule)))
    }

    pub fn is_normal(&self) -> bool
        ensures { Decides result (Normal (rules_in self.now) (term_in self.now)) }
    {
        self.first_redex().is_none()
    }

    // Whether the rule of a number matches at a place, or why not: there is a redex also where the next term is too long.
    pub fn check_redex(&self, rule: usize, place: usize) -> Result<(), RewriteFault>
        ensures value { result ≡ redex_of (rewritten (arities_in self.now) (rules_in self.now) (codes_in self.now) rule place) }
        ensures means { RedexTold (rules_in self.now) (term_in self.now) rule place result }
    {
        let rule = self.system.rules().get(rule).ok_or(RewriteFault::NoRule)?;
        let place = Place::inside(self.system.signature(), self.codes(), place);
        let place = place.ok_or(RewriteFault::NoPlace)?;
        if place.match_with(rule.left()).is_none() {
            return Err(RewriteFault::NoMatch);
        }
        Ok(())
    }

    // A step by a rule number at a place; what is refused leaves the term as it is.
    pub fn rewrite(&mut self, rule: usize, place: usize) -> Result<(), RewriteFault>
        ensures value { result ≡ answer (rewritten (arities_in self.old) (rules_in self.old) (codes_in self.old) rule place) }
        ensures after { codes_in self.new ≡ codes_after (codes_in self.old) (rewritten (arities_in self.old) (rules_in self.old) (codes_in self.old) rule place) }
        ensures same { self.new.system ≡ self.old.system }
        ensures means { Rewrites (rules_in self.old) (term_in self.old) rule place result (term_in self.new) }
    {
        let rule = self.system.rules().get(rule).ok_or(RewriteFault::NoRule)?;
        let place = Place::inside(self.system.signature(), self.term.as_slice(), place);
        let place = place.ok_or(RewriteFault::NoPlace)?;
        place.step_into(rule, &mut self.next)?;
        self.term = self.next;
        Ok(())
    }
}
