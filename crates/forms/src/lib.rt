// Heights of terms and linear forms of rules, for any kind of vector: by the one evaluator, on codes. `height` and `compare`
// answer by the definitions of `interpretations`.
#![tactic(auto)]

ghost use Rattle.std.specs.Prelude.{◌≡◌, length};
ghost use Rattle.std.specs.List.{list_all, zip};
ghost use Rattle.forms.specs.Faithful.{covers};
ghost use Rattle.evaluation.specs.Replies.{remembered};
ghost use Rattle.forms.specs.Columns.{single, forms};
ghost use Rattle.forms.specs.Replies.{height_reply, compare_reply, forms_order, remembered_both};

pub mod readers;
pub mod reckoning;

use algebras::Order;
use evaluation::{Interpretation, evaluate};
pub use readers::{Form, Forms, Heights, WIDTH};
pub use reckoning::Reckoning;
use terms::MOST_SIDE;

// Whether no entry of the right form is greater than the left form's.
fn form_covers<P: Reckoning>(part: &P, left: &Form<P::Vector>, right: &Form<P::Vector>) -> bool
    ensures { result ≡ list_all (λ columns. covers (P.meaning part.now) (P.entry columns.0) (P.entry columns.1)) (zip left.now right.now) }
{
    left.iter().zip(right).all(|(l, r)| part.covers(*l, *r))
}

fn compare_forms<P: Reckoning>(part: &P, left: &Form<P::Vector>, right: &Form<P::Vector>) -> Order
    ensures { result ≡ forms_order (P.meaning part.now) P.entry (P.columns part.now).zero left.now right.now }
{
    if !form_covers(part, left, right) {
        Order::Neither
    } else if part.first(right[0]) < part.first(left[0]) {
        Order::Strict
    } else {
        Order::Weak
    }
}

// The height of the term that the codes are, in memory with a place for each.
pub fn height<P: Reckoning>(part: &P, codes: &[u16], memory: &mut [P::Vector]) -> Option<u64>
    ensures value { result ≡ height_reply (P.meaning part.now) codes.now (length memory.old) }
    ensures memory { memory.new ≡ remembered (single (P.columns part.now)) (P.meaning part.now).sig codes.now memory.old }
{
    evaluate(&Heights { part }, codes, memory).map(|vector| part.first(vector))
}

// How the sides of the rule that the codes are compare, in memory for a side.
pub fn compare<P: Reckoning>(
    part: &P,
    left: &[u16],
    right: &[u16],
    memory: &mut [Form<P::Vector>],
) -> Option<Order>
    ensures value { result ≡ compare_reply (P.meaning part.now) left.now right.now (length memory.old) }
    ensures memory { memory.new ≡ remembered_both (forms (P.columns part.now)) (P.meaning part.now).sig left.now right.now memory.old }
{
    if memory.len() < MOST_SIDE || !part.signature().is_rule(left, right) {
        return None;
    }
    let forms = Forms { part };
    let left_form = evaluate(&forms, left, memory)?;
    let right_form = evaluate(&forms, right, memory)?;
    Some(compare_forms(part, &left_form, &right_form))
}
