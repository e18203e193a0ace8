// The calls of a search: what they answer is what those of its subject answer.
ghost use Rattle.std.specs.Prelude.{◌≡◌};
ghost use Rattle.terms.specs.Steps.{FirstRedex};
ghost use Rattle.rewriting.specs.Searching.{first_redex};
ghost use Rattle.rewriting.specs.Replies.{rewritten, answer, codes_after};
ghost use Rattle.rewriting.specs.Subjects.{arities_in, rules_in, codes_in, term_in};
ghost use Rattle.rewriting.specs.Laws.{Rewrites};
ghost use Rattle.resuming.specs.Laws.{Begins, MakesStep, LowestAt, NoneBelowAfter};

use crate::climbing::back_up;
use crate::search::Search;
use crate::seeing::levels_of;
use rewriting::{RewriteFault, Subject};

impl Search {
    // From the front.
    pub fn new(subject: Subject) -> Search
        ensures { result.subject ≡ subject }
    {
        let levels = levels_of(subject.system());
        Search {
            subject,
            from: 0,
            levels,
        }
    }

    pub fn subject(&self) -> &Subject
        ensures { result.now ≡ self.now.subject }
    {
        &self.subject
    }

    // Whether the left side of a rule begins as the subterm at a place: without that there is no match.
    fn begins(&self, rule: usize, place: usize) -> bool
        ensures { Begins (rules_in self.now.subject) (term_in self.now.subject) rule place result }
    {
        let rules = self.subject.system().rules();
        let codes = self.subject.codes();
        if rule >= rules.len() || place >= codes.len() {
            return false;
        }
        match rules[rule].left().first() {
            Some(first) => *first == codes[place],
            None => false,
        }
    }

    // Whether a rule makes a step at a place.
    fn makes_step(&self, rule: usize, place: usize) -> bool
        ensures { MakesStep (rules_in self.now.subject) (term_in self.now.subject) rule place result }
    {
        if !self.begins(rule, place) {
            return false;
        }
        self.subject.check_redex(rule, place).is_ok()
    }

    // The lowest rule that makes a step at a place.
    fn lowest_rule(&self, place: usize) -> Option<usize>
        ensures { LowestAt (rules_in self.now.subject) (term_in self.now.subject) place result }
    {
        for rule in 0..self.subject.system().rules().len() {
            if self.makes_step(rule, place) {
                return Some(rule);
            }
        }
        None
    }

    // The place and the rule of the first redex together; none at a normal form.
    pub fn first_redex(&self) -> Option<(usize, usize)>
        ensures value { result ≡ first_redex (arities_in self.now.subject) (rules_in self.now.subject) (codes_in self.now.subject) }
        ensures means { FirstRedex (rules_in self.now.subject) (term_in self.now.subject) result }
    {
        for place in self.from..self.subject.codes().len() {
            if let Some(rule) = self.lowest_rule(place) {
                return Some((place, rule));
            }
        }
        None
    }

    // The same, and what was passed need not be searched again.
    pub fn seek(&mut self) -> Option<(usize, usize)>
        ensures value { result ≡ first_redex (arities_in self.old.subject) (rules_in self.old.subject) (codes_in self.old.subject) }
        ensures same { self.new.subject ≡ self.old.subject }
    {
        let found = self.first_redex();
        self.from = match found {
            Some((place, _)) => place,
            None => self.subject.codes().len(),
        };
        found
    }

    // Where a search goes on behind a step at a place.
    fn resumed(&self, place: usize) -> usize
        ensures { NoneBelowAfter (rules_in self.now.subject) (term_in self.now.subject) place result }
    {
        let Some(levels) = self.levels else {
            return 0;
        };
        let codes = self.subject.codes();
        let before = &codes[..place.min(codes.len())];
        self.from
            .min(back_up(self.subject.system().signature(), levels, before))
    }

    // A step by a rule number at a place; what is refused leaves the term as it is.
    pub fn rewrite(&mut self, rule: usize, place: usize) -> Result<(), RewriteFault>
        ensures value { result ≡ answer (rewritten (arities_in self.old.subject) (rules_in self.old.subject) (codes_in self.old.subject) rule place) }
        ensures after { codes_in self.new.subject ≡ codes_after (codes_in self.old.subject) (rewritten (arities_in self.old.subject) (rules_in self.old.subject) (codes_in self.old.subject) rule place) }
        ensures same { self.new.subject.system ≡ self.old.subject.system }
    {
        let from = self.resumed(place);
        self.subject.rewrite(rule, place)?;
        self.from = from;
        Ok(())
    }
}
