// The checked constructor, and the parts.
ghost use Rattle.std.specs.Prelude.{◌≡◌};
ghost use Rattle.terms.specs.Models.{arities_of, all_sides, all_rules};
ghost use Rattle.terms.specs.Systems.{system_of, signature_of, listed_rules, system_reply};
ghost use Rattle.terms.specs.Replies.{viewed};
ghost use Rattle.terms.specs.Laws.{SystemExactly};

use crate::malformed::Malformed;
use crate::rule::Rule;
use crate::signature::Signature;
use crate::system::System;
use bounded::ArrayVec;

fn are_rules(signature: &Signature, rules: &[Rule]) -> bool
    ensures { result ≡ all_rules (arities_of signature.now) (all_sides rules.now) }
{
    rules
        .iter()
        .all(|rule| signature.is_rule(rule.left(), rule.right()))
}

impl System {
    // At most 32 rules, each over the signature.
    pub fn new(signature: Signature, rules: &[Rule]) -> Result<System, Malformed>
        ensures value { viewed system_of result ≡ system_reply (arities_of signature) (all_sides rules.now) }
        ensures means { SystemExactly (arities_of signature) (all_sides rules.now) (viewed system_of result) }
    {
        let kept = ArrayVec::from_slice(Rule::unused(), rules).map_err(|_| Malformed::System)?;
        if !are_rules(&signature, rules) {
            return Err(Malformed::System);
        }
        Ok(System {
            signature,
            rules: kept,
        })
    }

    pub fn signature(&self) -> &Signature
        ensures { arities_of result.now ≡ signature_of self.now }
    {
        &self.signature
    }

    pub fn rules(&self) -> &[Rule]
        ensures { result.now ≡ listed_rules self.now }
    {
        self.rules.as_slice()
    }
}
