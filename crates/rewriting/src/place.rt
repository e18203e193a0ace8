// A place of a term: codes that are a term under a signature, and the number of one of them.
ghost use Rattle.std.specs.Prelude.{◌<◌, T, length};
ghost use Rattle.terms.specs.Codes.{is_term};
ghost use Rattle.terms.specs.Models.{arities_of};

use terms::Signature;

mod calls;

#[derive(Clone, Copy)]
pub struct Place<'a> {
    pub signature: &'a Signature,
    pub codes: &'a [u16],
    pub at: usize,
    ghost term: { T (is_term (arities_of signature.now) codes.now) },
    ghost inside: { at < length codes.now },
}
