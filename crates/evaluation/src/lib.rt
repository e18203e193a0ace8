// One evaluator for every kind of value: a term's codes are read from the last to the first, and the values of the
// terms behind a code wait on a stack over lent memory. That the value is the term's stands on `evaluate`.
#![tactic(auto)]

ghost use Rattle.std.specs.Prelude.{◌≡◌, ◌+◌, ◌<◌, ◌≤◌, T, length, if◌then◌else◌, is_some};
ghost use Rattle.terms.specs.Codes.{arity, known, is_term};
ghost use Rattle.evaluation.specs.Structures.{Every, applied, stepped};
ghost use Rattle.evaluation.specs.Held.{held, room};
ghost use Rattle.evaluation.specs.Replies.{evaluated, stored, filled, remembered};
ghost use Rattle.evaluation.specs.Laws.{Evaluates};

pub mod interpretation;
pub mod stack;

pub use interpretation::Interpretation;
pub use stack::Stack;
use terms::Code;

// Reads one code: its value takes the place of its arguments' values. None if it is out of the bound, and then
// nothing changes.
fn step<I: Interpretation>(
    interpretation: &I,
    code: u16,
    waiting: &mut Stack<I::Value>,
) -> Option<()>
    requires known { T (known (I.arities interpretation.now) code) }
    requires enough { arity (I.arities interpretation.now) code ≤ length (held waiting.old) }
    requires tested { Every (I.structure interpretation.now).within (held waiting.old) }
    requires room { 0 < room waiting.old }
    ensures done { is_some result ≡ (I.structure interpretation.now).within (applied (I.structure interpretation.now) (I.arities interpretation.now) code (held waiting.old)) }
    ensures after { held waiting.new ≡ (if is_some result then stepped (I.structure interpretation.now) (I.arities interpretation.now) code (held waiting.old) else held waiting.old) }
    ensures room { room waiting.old ≤ room waiting.new + 1 }
    ensures lender { waiting.new.slots.ghost_name ≡ waiting.old.slots.ghost_name }
    ensures memory { waiting.new.slots.now ≡ (if is_some result then stored waiting.old.slots.now (stepped (I.structure interpretation.now) (I.arities interpretation.now) code (held waiting.old)) else waiting.old.slots.now) }
{
    match Code::from(code) {
        Code::Variable(number) => {
            let value = interpretation.variable(number as usize);
            waiting.push(value).ok()
        }
        Code::Symbol(symbol) => {
            let count = interpretation.signature().arity(code);
            let value = interpretation.apply(symbol as usize, waiting.top(count))?;
            waiting.release(count);
            waiting.push(value).ok()
        }
    }
}

// The value of a term that has a place of memory for each of its codes.
fn fold<I: Interpretation>(
    interpretation: &I,
    codes: &[u16],
    memory: &mut [I::Value],
) -> Option<I::Value>
    requires term { T (is_term (I.arities interpretation.now) codes.now) }
    requires room { length codes.now ≤ length memory.old }
    ensures value { result ≡ evaluated (I.structure interpretation.now) (I.arities interpretation.now) codes.now (length memory.old) }
    ensures memory { memory.new ≡ filled (I.structure interpretation.now) (I.arities interpretation.now) codes.now memory.old }
{
    let mut waiting = Stack::over(memory);
    for code in codes.iter().rev() {
        step(interpretation, *code, &mut waiting)?;
    }
    waiting.top(1).first().copied()
}

// The value of the term that the codes are; none if they are no term under the interpretation's signature, if the
// memory has fewer places than there are codes, or if the value of some subterm is out of the bound.
#[tactic(auto, using(crate::proofs::Evaluated::evaluates_law))]
pub fn evaluate<I: Interpretation>(
    interpretation: &I,
    codes: &[u16],
    memory: &mut [I::Value],
) -> Option<I::Value>
    ensures value { result ≡ evaluated (I.structure interpretation.now) (I.arities interpretation.now) codes.now (length memory.old) }
    ensures means { Evaluates (I.structure interpretation.now) (I.arities interpretation.now) codes.now (length memory.old) result }
    ensures memory { memory.new ≡ remembered (I.structure interpretation.now) (I.arities interpretation.now) codes.now memory.old }
{
    if !interpretation.signature().is_term(codes) {
        return None;
    }
    if codes.len() > memory.len() {
        return None;
    }
    fold(interpretation, codes, memory)
}
