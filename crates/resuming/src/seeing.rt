// How deep left sides see.
ghost use Rattle.std.specs.Prelude.{◌≡◌, ◌≤◌, T};
ghost use Rattle.terms.specs.Systems.{rules_of};
ghost use Rattle.resuming.specs.Shapes.{unrepeated, symbols, seen};

use terms::System;

// Whether no variable stands twice.
fn is_unrepeated(codes: &[u16]) -> bool
    ensures { result ≡ unrepeated codes.now }
{
    match codes.split_first() {
        None => true,
        Some((first, rest)) => (*first < 32_768 || !rest.contains(first)) && is_unrepeated(rest),
    }
}

fn symbols(codes: &[u16]) -> usize
    ensures { result ≡ symbols codes.now }
{
    codes.iter().filter(|code| **code < 32_768).count()
}

fn larger(a: usize, b: usize) -> usize
    ensures first { a ≤ result }
    ensures second { b ≤ result }
{
    if a < b { b } else { a }
}

// How many levels above a step a new redex can be: one less than the most symbols of a left side. None, if one of them has a
// variable twice.
pub(crate) fn levels_of(system: &System) -> Option<usize>
    ensures { T (seen result (rules_of system.now)) }
{
    let mut most = 1;
    for rule in system.rules() {
        if !is_unrepeated(rule.left()) {
            return None;
        }
        most = larger(most, symbols(rule.left()));
    }
    Some(most - 1)
}
