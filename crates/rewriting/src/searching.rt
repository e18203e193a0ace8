// The lowest rule that matches at a place.
ghost use Rattle.std.specs.Prelude.{◌≡◌, T};
ghost use Rattle.terms.specs.Models.{all_sides, all_rules};
ghost use Rattle.terms.specs.Systems.{rules_from};
ghost use Rattle.rewriting.specs.Places.{arities_at, subterm};
ghost use Rattle.rewriting.specs.Searching.{lowest_rule as lowest_rule_of};

use crate::place::Place;
use terms::Rule;

impl Place<'_> {
    pub(crate) fn lowest_rule(&self, rules: &[Rule]) -> Option<usize>
        requires { T (all_rules (arities_at self.now) (all_sides rules.now)) }
        ensures { result ≡ lowest_rule_of (rules_from (arities_at self.now) (all_sides rules.now)) (subterm self.now) }
    {
        rules
            .iter()
            .position(|rule| self.match_with(rule.left()).is_some())
    }
}
