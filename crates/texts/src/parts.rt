// What a text has said so far.
use bounded::ArrayVec;
use reading::{Block, Role, Side};
use vocabulary::Vocabulary;

mod calls;

// The codes of a rule's sides.
#[derive(Clone, Copy)]
pub(crate) struct RuleCodes {
    pub left: ArrayVec<u16, 32>,
    pub right: ArrayVec<u16, 32>,
}

// What is awaited: a block's bracket or its word, a variable, a rule, the arrow behind a left side, more of a term, or
// nothing more, behind a rule text or a start term.
#[derive(Clone, Copy)]
pub(crate) enum Phase {
    Bracket(Block),
    Keyword(Block),
    Variable,
    Rule,
    Arrow(ArrayVec<u16, 32>),
    Inside(Role),
    Closed,
    Ended,
}

// The names, the rules that are whole, and the term that is read.
#[derive(Drop)]
pub(crate) struct Parts {
    pub vocabulary: Vocabulary,
    pub rules: ArrayVec<RuleCodes, 32>,
    pub side: Side,
}
