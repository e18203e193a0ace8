// Trips: a term is rewritten at its first redex, step by step, until there is none.
#![tactic(auto)]

ghost use Rattle.std.specs.Prelude.{◌≡◌, Some, IfOk, IfErr};
ghost use Rattle.rewriting.specs.Subjects.{rules_in, term_in};
ghost use Rattle.trips.specs.Ends.{end_word};
ghost use Rattle.trips.specs.Trips.{Advanced, Reached, Followed};
ghost use Rattle.trips.specs.Visits.{Visited};

use rewriting::{RewriteFault, Subject};
use std::convert::Infallible;
use std::fmt;

// A trip has no reserve, as a job has: this many steps are made at most.
pub const MOST_STEPS: u64 = 1_000_000;

#[derive(Clone, Copy, PartialEq, Eq, Debug)]
pub enum End {
    Normal,
    More,
    TooLong,
}

// A next term that is too long shows as the number of that refusal.
impl fmt::Display for End {
    ghost output = { λ end. Some (end_word end) };

    fn fmt<W: fmt::Write>(&self, f: &mut fmt::Formatter<W>) -> fmt::Result {
        f.write_str(match self {
            End::Normal => "normal",
            End::More => "more",
            End::TooLong => "42",
        })
    }
}

#[derive(Clone, Copy, PartialEq, Eq, Debug)]
pub struct Trip {
    pub end: End,
    pub steps: u64,
}

// One step at the first redex, and its place and rule; none at a normal form. The only fault is a next term too long.
pub fn step_on(subject: &mut Subject) -> Result<Option<(usize, usize)>, RewriteFault>
    ensures same { subject.new.system ≡ subject.old.system }
    ensures means { Advanced (rules_in subject.old) (term_in subject.old) result (term_in subject.new) }
{
    let Some((place, rule)) = subject.first_redex() else {
        return Ok(None);
    };
    subject.rewrite(rule, place)?;
    Ok(Some((place, rule)))
}

// Shows each step's place and rule to `visit`, once and in order; what is left is the last term of a derivation from the
// first, also where `visit` stops it.
pub fn follow_with<E, F: FnMut(usize, usize) -> Result<(), E>>(
    subject: &mut Subject,
    mut visit: F,
) -> Result<Trip, E>
    requires { F.IsAlwaysCallable visit }
    ensures same { subject.new.system ≡ subject.old.system }
    ensures means { IfOk result (λ trip. Followed (rules_in subject.old) (term_in subject.old) trip (term_in subject.new)) }
    ensures stopped { IfErr result (λ _. Reached (rules_in subject.old) (term_in subject.old) (term_in subject.new)) }
    ensures shown { Visited F.step (rules_in subject.old) (term_in subject.old) visit result (term_in subject.new) }
{
    for steps in 0..MOST_STEPS {
        match step_on(subject) {
            Ok(Some((place, number))) => visit(place, number)?,
            Ok(None) => {
                return Ok(Trip {
                    end: End::Normal,
                    steps,
                });
            }
            Err(_) => {
                return Ok(Trip {
                    end: End::TooLong,
                    steps,
                });
            }
        }
    }
    Ok(Trip {
        end: End::More,
        steps: MOST_STEPS,
    })
}

// The same without a visitor: this can't fail.
pub fn follow(subject: &mut Subject) -> Trip
    ensures same { subject.new.system ≡ subject.old.system }
    ensures means { Followed (rules_in subject.old) (term_in subject.old) result (term_in subject.new) }
{
    let Ok(trip) = follow_with(subject, |_, _| Ok::<(), Infallible>(()));
    trip
}
