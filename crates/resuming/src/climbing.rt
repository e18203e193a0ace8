// How far a search has to go back.
ghost use Rattle.std.specs.Prelude.{◌≡◌};
ghost use Rattle.terms.specs.Models.{arities_of};
ghost use Rattle.resuming.specs.Climbing.{back_up as back_up_of};
ghost use Rattle.resuming.specs.Laws.{ClimbsEnough};

use terms::Signature;

fn climb(signature: &Signature, levels: usize, before: &[u16]) -> usize
    ensures { result ≡ back_up_of (arities_of signature.now) levels before.now }
{
    let mut place = before.len();
    let mut left = levels;
    // How many whole terms stand behind the place that the awaited symbol has as arguments.
    let mut terms = 0;
    while place > 0 && left > 0 {
        place -= 1;
        let arity = signature.arity(before[place]);
        if terms < arity {
            left -= 1;
            terms = 0;
        } else {
            terms = terms + 1 - arity;
        }
    }
    if left > 0 { 0 } else { place }
}

// The place of the symbol so many levels above the place behind some codes; the front, if there are not so many.
pub fn back_up(signature: &Signature, levels: usize, before: &[u16]) -> usize
    ensures value { result ≡ back_up_of (arities_of signature.now) levels before.now }
    ensures law { ClimbsEnough (arities_of signature.now) levels before.now result }
{
    climb(signature, levels, before)
}
