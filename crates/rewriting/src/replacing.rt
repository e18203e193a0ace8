// One rewrite: what is before the place, the right side under the bindings, and what is behind the subterm.
ghost use Rattle.std.specs.Prelude.{◌≡◌, T, ◌++◌};
ghost use Rattle.bounded.specs.Items.{items};
ghost use Rattle.terms.specs.Models.{sides_of};
ghost use Rattle.terms.specs.Replies.{viewed};
ghost use Rattle.terms.specs.Shapes.{is_rule, rule_of};
ghost use Rattle.rewriting.specs.Bindings.{bound_to};
ghost use Rattle.rewriting.specs.Filling.{Grew, filled, replaced};
ghost use Rattle.rewriting.specs.Places.{arities_at};
ghost use Rattle.rewriting.specs.Replies.{stepped};

use crate::bindings::Bindings;
use crate::fault::RewriteFault;
use crate::place::Place;
use bounded::{ArrayVec, Full};
use terms::{Code, Rule};

// Adds a right side, with what is bound to its variables in their place.
fn fill(bindings: &Bindings, right: &[u16], out: &mut ArrayVec<u16, 1024>) -> Result<(), Full>
    ensures { Grew result (items out.old ++ filled (bound_to bindings.now) right.now) (items out.new) }
{
    for code in right {
        match Code::from(*code) {
            Code::Symbol(symbol) => out.push(symbol)?,
            Code::Variable(v) => out.extend(bindings.bound(v as usize))?,
        }
    }
    Ok(())
}

impl Place<'_> {
    fn replace(
        &self,
        bindings: &Bindings,
        right: &[u16],
        out: &mut ArrayVec<u16, 1024>,
    ) -> Result<(), Full>
        ensures { Grew result (replaced (arities_at self.now) self.now.codes.now self.now.at (filled (bound_to bindings.now) right.now)) (items out.new) }
    {
        out.clear();
        out.extend(&self.codes[..self.at])?;
        fill(bindings, right, out)?;
        out.extend(&self.codes[self.end()..])
    }

    // A step by a rule, into memory that was set aside.
    pub(crate) fn step_into(
        &self,
        rule: &Rule,
        out: &mut ArrayVec<u16, 1024>,
    ) -> Result<(), RewriteFault>
        requires { T (is_rule (arities_at self.now) (sides_of rule.now).left (sides_of rule.now).right) }
        ensures { viewed (λ _. items out.new) result ≡ stepped (arities_at self.now) self.now.codes.now self.now.at (rule_of (arities_at self.now) (sides_of rule.now).left (sides_of rule.now).right) }
    {
        let bindings = self.match_with(rule.left()).ok_or(RewriteFault::NoMatch)?;
        self.replace(&bindings, rule.right(), out)?;
        Ok(())
    }
}
