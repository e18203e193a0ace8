// Codes under a signature: are they a term, and where does a subterm end?
ghost use Rattle.std.specs.Prelude.{◌≡◌, ◌-◌, ◌≤◌, cond, length, is_ok, IfSome, None, Some};
ghost use Rattle.terms.specs.Limits.{most_term};
ghost use Rattle.terms.specs.Codes.{arity, known, is_term, first_terms};
ghost use Rattle.terms.specs.Shapes.{all_within, is_rule};
ghost use Rattle.terms.specs.Models.{arities_of};
ghost use Rattle.terms.specs.Replies.{viewed, signature_reply, span_reply, end_reply};
ghost use Rattle.terms.specs.Laws.{SignatureExactly, TermExactly, RuleExactly, EndsExactly};

use crate::malformed::Malformed;
use crate::rule::is_proper;
use crate::signature::Signature;
use crate::{FIRST_VARIABLE, LAST_VARIABLE, MOST_ARGUMENTS, MOST_TERM};
use bounded::ArrayVec;

fn all_small(arities: &[u8]) -> bool
    ensures { result ≡ all_within 4 arities.now }
{
    arities.iter().all(|arity| *arity <= MOST_ARGUMENTS)
}

impl Signature {
    // At most 32 symbols, of 0 to 4 arguments each.
    pub fn new(arities: &[u8]) -> Result<Signature, Malformed>
        ensures value { viewed arities_of result ≡ signature_reply arities.now }
        ensures means { SignatureExactly arities.now (is_ok result) }
    {
        let kept = ArrayVec::from_slice(0, arities).map_err(|_| Malformed::Signature)?;
        if !all_small(arities) {
            return Err(Malformed::Signature);
        }
        Ok(Signature { arities: kept })
    }

    pub fn arities(&self) -> &[u8]
        ensures { result.now ≡ arities_of self.now }
    {
        self.arities.as_slice()
    }

    // The number of arguments of a code: none for a variable, whose code is past all symbols, or an unknown code.
    #[tactic(auto, using(bounded::proofs::Lengths::items_few))]
    pub fn arity(&self, code: u16) -> usize
        ensures value { result ≡ arity (arities_of self.now) code }
        ensures small { result ≤ 4 }
    {
        let arity = self.arities().get(code as usize);
        arity.map_or(0, |arity| *arity as usize)
    }

    // The number of arguments of a code that is known. Symbols are looked up first: their codes are the lowest.
    #[tactic(auto, using(bounded::proofs::Lengths::items_few))]
    fn arguments(&self, code: u16) -> Option<usize>
        ensures value { result ≡ cond (known (arities_of self.now) code) (Some (arity (arities_of self.now) code)) None }
        ensures small { IfSome result (λ count. count ≤ 4) }
    {
        match self.arities().get(code as usize) {
            Some(arity) => Some(*arity as usize),
            None => (FIRST_VARIABLE..=LAST_VARIABLE)
                .contains(&code)
                .then_some(0),
        }
    }

    // How many codes the first term takes; none where the codes end before it is complete.
    fn first_term(&self, codes: &[u16]) -> Option<usize>
        requires { length codes.now ≤ most_term }
        ensures { result ≡ first_terms (arities_of self.now) 1 codes.now }
    {
        let mut need: usize = 1;
        for (taken, code) in codes.iter().enumerate() {
            if need == 0 {
                return Some(taken);
            }
            need = need - 1 + self.arity(*code);
        }
        (need == 0).then_some(codes.len())
    }

    // Whether codes are a term of at most 1,024 codes.
    pub fn is_term(&self, codes: &[u16]) -> bool
        ensures value { result ≡ is_term (arities_of self.now) codes.now }
        ensures means { TermExactly (arities_of self.now) codes.now result }
    {
        if codes.len() > MOST_TERM {
            return false;
        }
        // One pass, that stops at an unknown code and at a code behind a whole term.
        let mut awaited: usize = 1;
        for code in codes {
            if awaited == 0 {
                return false;
            }
            let Some(count) = self.arguments(*code) else {
                return false;
            };
            awaited = awaited - 1 + count;
        }
        awaited == 0
    }

    // How many codes the subterm at a place takes, by counting; nothing is asked of the codes.
    pub fn span(&self, codes: &[u16], at: usize) -> usize
        ensures value { result ≡ span_reply (arities_of self.now) codes.now at }
        ensures within { result ≤ length codes.now - at }
    {
        if codes.len() > MOST_TERM {
            return 0;
        }
        let rest = codes.get(at..).unwrap_or(&[]);
        self.first_term(rest).unwrap_or(rest.len())
    }

    // Where the subterm at a place ends; none if the codes are no term, or have no such place.
    pub fn subterm_end(&self, codes: &[u16], at: usize) -> Option<usize>
        ensures value { result ≡ end_reply (arities_of self.now) codes.now at }
        ensures means { EndsExactly (arities_of self.now) codes.now at result }
    {
        if !self.is_term(codes) {
            return None;
        }
        if at >= codes.len() {
            return None;
        }
        Some(at + self.span(codes, at))
    }

    // Whether two sides are a rule over this signature, within the limits.
    pub fn is_rule(&self, left: &[u16], right: &[u16]) -> bool
        ensures value { result ≡ is_rule (arities_of self.now) left.now right.now }
        ensures means { RuleExactly (arities_of self.now) left.now right.now result }
    {
        is_proper(left, right) && self.is_term(left) && self.is_term(right)
    }
}
