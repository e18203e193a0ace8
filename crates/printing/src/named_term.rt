// A term with its names, displayed as its text.
ghost use Rattle.std.specs.Prelude.{◌≡◌, None, Some};
ghost use Rattle.vocabulary.specs.Models.{vocabulary_of};
ghost use Rattle.vocabulary.specs.Naming.{naming_of};
ghost use Rattle.printing.specs.Showing.{all_named};
ghost use Rattle.printing.specs.Replies.{is_printable, displayed};
ghost use Rattle.printing.specs.Laws.{DisplayedExactly};
ghost use Rattle.std.specs.Fmt.{DisplaysOnOk, DisplaysStyledOnOk};

use crate::fault::PrintFault;
use crate::speller::Speller;
use std::fmt;
use vocabulary::{Names, Vocabulary};

#[derive(Clone, Copy)]
pub struct NamedTerm<'a> {
    pub names: &'a Names,
    pub codes: &'a [u16],
}

// Whether each code has a name: a variable that is not declared has none.
fn are_named(vocabulary: &Vocabulary, codes: &[u16]) -> bool
    ensures { result ≡ all_named (vocabulary_of vocabulary.now) codes.now }
{
    codes.iter().all(|code| vocabulary.name_of(*code).is_some())
}

impl NamedTerm<'_> {
    // Whether the codes are a term whose variables are declared: one over the signature may have others.
    pub(crate) fn is_printable(&self) -> bool
        ensures { result ≡ is_printable (naming_of self.now.names.now) self.now.codes.now }
    {
        self.names.signature().is_term(self.codes) && are_named(self.names.vocabulary(), self.codes)
    }
}

// Codes that are no term over the names are displayed as that refusal.
impl fmt::Display for NamedTerm<'_> {
    ghost output = { λ t. Some (displayed (naming_of t.names.now) t.codes.now) };

    #[tactic(auto, using(crate::proofs::Exactly::displayed_exactly))]
    fn fmt<W: fmt::Write>(&self, f: &mut fmt::Formatter<W>) -> fmt::Result
        ensures writes { DisplaysOnOk W.write_str_gives f.old result (Some (displayed (naming_of self.now.names.now) self.now.codes.now)) f.new }
        ensures styled { DisplaysStyledOnOk W.write_str_gives f.old result None f.new }
        ensures means { DisplayedExactly (naming_of self.now.names.now) self.now.codes.now }
    {
        let Some(speller) = Speller::new(*self) else {
            return PrintFault::NoTerm.fmt(f);
        };
        for piece in speller {
            f.write_str(str::from_utf8(piece.bytes()).map_err(|_| fmt::Error)?)?;
        }
        Ok(())
    }
}
