// A subject, with a place below which it has no redex.
ghost use Rattle.std.specs.Prelude.{T};
ghost use Rattle.rewriting.specs.Subjects.{rules_in, term_in};
ghost use Rattle.resuming.specs.Shapes.{seen};
ghost use Rattle.resuming.specs.Laws.{NoneBelow};

use rewriting::Subject;

mod calls;

#[derive(Drop)]
pub struct Search {
    subject: Subject,
    from: usize,
    // How many levels above a step a new redex can be; none if a left side compares subterms, so that it can be anywhere above.
    levels: Option<usize>,
    ghost passed: { NoneBelow (rules_in subject) (term_in subject) from },
    ghost known: { T (seen levels (rules_in subject)) },
}
