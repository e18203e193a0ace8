// The checked constructors, and where the subterm ends.
ghost use Rattle.std.specs.Prelude.{◌≡◌, ◌+◌, ◌≤◌, T, length};
ghost use Rattle.terms.specs.Codes.{is_term};
ghost use Rattle.terms.specs.Models.{arities_of};
ghost use Rattle.terms.specs.Replies.{viewed};
ghost use Rattle.terms.specs.Terms.{size};
ghost use Rattle.rewriting.specs.Places.{Placed, spot_of, place_reply, subterm};

use crate::fault::RewriteFault;
use crate::place::Place;
use terms::Signature;

impl<'a> Place<'a> {
    // None where the term has no such place.
    pub(crate) fn inside(signature: &'a Signature, codes: &'a [u16], at: usize) -> Option<Place<'a>>
        requires { T (is_term (arities_of signature.now) codes.now) }
        ensures { Placed (arities_of signature.now) codes.now at result }
    {
        if at >= codes.len() {
            return None;
        }
        Some(Place {
            signature,
            codes,
            at,
        })
    }

    // The same of codes that may be no term.
    pub(crate) fn new(
        signature: &'a Signature,
        codes: &'a [u16],
        at: usize,
    ) -> Result<Place<'a>, RewriteFault>
        ensures { viewed spot_of result ≡ place_reply (arities_of signature.now) codes.now at }
    {
        if !signature.is_term(codes) {
            return Err(RewriteFault::Malformed);
        }
        Place::inside(signature, codes, at).ok_or(RewriteFault::NoPlace)
    }

    pub(crate) fn end(&self) -> usize
        ensures value { result ≡ self.now.at + size (subterm self.now) }
        ensures within { result ≤ length self.now.codes.now }
    {
        self.at + self.signature.span(self.codes, self.at)
    }
}
