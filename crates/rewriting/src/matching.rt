// Matching a pattern with the subterm at a place.
ghost use Rattle.std.specs.Prelude.{◌≡◌, T, is_some};
ghost use Rattle.terms.specs.Codes.{is_term, term_of};
ghost use Rattle.terms.specs.Models.{arities_of};
ghost use Rattle.rewriting.specs.Bindings.{Answered};
ghost use Rattle.rewriting.specs.Laws.{Matched};
ghost use Rattle.rewriting.specs.Matching.{matches as match_test};
ghost use Rattle.rewriting.specs.Places.{arities_at, subterm};
ghost use Rattle.rewriting.specs.Replies.{match_reply};

use crate::bindings::Bindings;
use crate::fault::RewriteFault;
use crate::place::Place;
use terms::{Code, Signature};

impl<'a> Place<'a> {
    // The codes of pattern and subject go side by side: a symbol meets itself, a variable takes a whole subterm.
    pub(crate) fn match_with(&self, pattern: &[u16]) -> Option<Bindings<'a>>
        requires { T (is_term (arities_at self.now) pattern.now) }
        ensures value { is_some result ≡ match_test (term_of (arities_at self.now) pattern.now) (subterm self.now) }
        ensures means { Answered result (arities_at self.now) pattern.now self.now.codes.now self.now.at }
    {
        let mut bindings = Bindings::new();
        let mut rest = &self.codes[self.at..];
        for code in pattern {
            match Code::from(*code) {
                Code::Symbol(_) => {
                    let (first, arguments) = rest.split_first()?;
                    if first != code {
                        return None;
                    }
                    rest = arguments;
                }
                Code::Variable(v) => {
                    let (part, others) = rest.split_at(self.signature.span(rest, 0));
                    bindings.bind(v as usize, part)?;
                    rest = others;
                }
            }
        }
        Some(bindings)
    }
}

// Whether some substitution makes the pattern equal to the subterm at a place. Variables of the subject are
// matched like constants.
pub fn matches(
    signature: &Signature,
    pattern: &[u16],
    codes: &[u16],
    place: usize,
) -> Result<bool, RewriteFault>
    ensures value { result ≡ match_reply (arities_of signature.now) pattern.now codes.now place }
    ensures means { Matched (arities_of signature.now) pattern.now codes.now place result }
{
    if !signature.is_term(pattern) {
        return Err(RewriteFault::Malformed);
    }
    let place = Place::new(signature, codes, place)?;
    Ok(place.match_with(pattern).is_some())
}
