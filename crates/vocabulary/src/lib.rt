// The names of a text: what each stands for, and the arities that its uses have fixed. That a name keeps its code, whatever is
// added, stands on the calls of `Vocabulary`.
#![tactic(auto)]

pub mod flaw;
pub mod names;
pub mod symbol;
pub mod vocabulary;

pub use flaw::Flaw;
pub use names::Names;
pub use symbol::Symbol;
pub use vocabulary::Vocabulary;

#[cfg(test)]
mod tests {
    use super::*;
    use std::test::Fail;
    use tokens::Name;

    #[test]
    fn names_are_numbered_by_first_appearance(rt: HostRuntime) -> Result<(), Fail> {
        let mut vocabulary = Vocabulary::new();
        let x = Name::new(b"x").unwrap();
        let add = Name::new(b"add").unwrap();
        let z = Name::new(b"z").unwrap();
        assert!(rt; vocabulary.declare(&x) == Ok(()));
        assert!(rt; vocabulary.number(&add) == Ok(0));
        assert!(rt; vocabulary.number(&z) == Ok(1));
        assert!(rt; vocabulary.number(&add) == Ok(0));
        assert!(rt; vocabulary.number(&x) == Ok(32768));
        Ok(())
    }
}
