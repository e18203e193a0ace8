// Terms printed with their names: what is printed is read back as the term, by the contract of `print_term`.
#![tactic(auto)]

pub mod fault;
pub mod named_term;
mod piece;
pub mod print;
mod speller;

pub use fault::PrintFault;
pub use named_term::NamedTerm;
pub use print::print_term;

// No text of a term is longer: each of at most 1,024 codes has a name of at most 16 bytes, and fewer than two brackets
// or commas. In memory of this many bytes every term is printed.
pub const MOST_TEXT: usize = 18_432;

#[cfg(test)]
mod tests {
    use super::*;
    use std::test::Fail;
    use tokens::Name;
    use vocabulary::{Names, Vocabulary};

    fn number(vocabulary: &mut Vocabulary, name: Name, arity: u8) -> Result<(), Fail> {
        let symbol = vocabulary.number(&name)?;
        vocabulary.settle(symbol, arity)?;
        Ok(())
    }

    // The symbols add, s and z, and a variable b.
    fn names() -> Result<Names, Fail> {
        let mut vocabulary = Vocabulary::new();
        vocabulary.declare(&Name::new(b"b").unwrap())?;
        number(&mut vocabulary, Name::new(b"add").unwrap(), 2)?;
        number(&mut vocabulary, Name::new(b"s").unwrap(), 1)?;
        number(&mut vocabulary, Name::new(b"z").unwrap(), 0)?;
        Names::new(vocabulary).ok_or_else(|| Fail::new("no names"))
    }

    #[test]
    fn prints_nested_terms(rt: HostRuntime) -> Result<(), Fail> {
        let mut out = [b'.'; 12];
        assert!(rt; print_term(&names()?, &[0, 1, 2, 32768], &mut out) == Ok(11));
        assert!(rt; &out == b"add(s(z),b).");
        Ok(())
    }

    #[test]
    fn refuses_and_writes_nothing(rt: HostRuntime) -> Result<(), Fail> {
        let names = names()?;
        let mut out = [b'.'; 3];
        assert!(rt; print_term(&names, &[1, 2], &mut out) == Err(PrintFault::TooShort));
        assert!(rt; print_term(&names, &[1, 32769], &mut out) == Err(PrintFault::NoTerm));
        assert!(rt; &out == b"...");
        Ok(())
    }
}
