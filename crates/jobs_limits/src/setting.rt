// The system, the pile and the start term that the next job is opened with.
use crate::opened::Opened;
use algebras::Empty;
use bounded::ArrayVec;
use jobs::{Full, Job, OpenFault};
use parts::{LinearPart, LinearSymbol};
use piles::{Part, pile_of};
use pools::Grant;
use terms::{Malformed, Rule, Signature, System};
use worked_parts::{WorkedPart, part};

pub type Codes = ArrayVec<u16, 1040>;

// A change of one of these.
#[derive(Drop)]
pub enum Change {
    // A signature, of no rules and no parts.
    Arities(ArrayVec<u8, 40>),
    Rule(Codes, Codes),
    Linear([LinearSymbol; 32]),
    Worked(WorkedPart),
    Term(Codes),
}

#[derive(Drop)]
pub struct Setting {
    signature: Signature,
    rules: ArrayVec<Rule, 40>,
    parts: ArrayVec<Part, 4>,
    start: Codes,
}

const MISSING: Part = Part::Missing(Empty {});

impl Setting {
    pub fn new() -> Setting {
        Setting {
            signature: Signature::new(&[]).unwrap(),
            rules: ArrayVec::new(Rule::unused()),
            parts: ArrayVec::new(MISSING),
            start: ArrayVec::new(0),
        }
    }

    // A rule or a part too many is left out.
    pub fn set(&mut self, change: Change) -> Result<(), Malformed> {
        match change {
            Change::Arities(arities) => {
                self.signature = Signature::new(arities.as_slice())?;
                self.rules.clear();
                self.parts.clear();
            }
            Change::Rule(left, right) => {
                let rule = Rule::new(left.as_slice(), right.as_slice())?;
                let _room = self.rules.push(rule);
            }
            Change::Linear(symbols) => {
                let made = LinearPart::new(self.signature, symbols).ok_or(Malformed::Signature)?;
                let _room = self.parts.push(Part::Linear(made));
            }
            Change::Worked(which) => {
                let _room = self.parts.push(part(which));
            }
            Change::Term(codes) => self.start = codes,
        }
        Ok(())
    }

    fn part(&self, at: usize) -> Part {
        *self.parts.as_slice().get(at).unwrap_or(&MISSING)
    }

    pub fn open(&self, in_full: bool, grant: &Grant) -> Result<Opened, OpenFault> {
        let system = System::new(self.signature, self.rules.as_slice())?;
        let start = self.start.as_slice();
        if !in_full {
            return Ok(Opened::Short(Job::open_short(system, start, grant)?));
        }
        let pile = pile_of(self.part(0), self.part(1), self.part(2), self.part(3));
        Ok(Opened::Full(Full::open(system, &pile, start, grant)?))
    }
}
