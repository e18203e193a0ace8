// What can be wrong with a text.
ghost use Rattle.std.specs.Prelude.{◌≡◌};
ghost use Rattle.vocabulary.specs.declared.flaw.Flaw.TheVariants.{TooMany};
ghost use Rattle.vocabulary.specs.Replies.{flaw_number};

use bounded::Full;

#[derive(Clone, Copy, PartialEq, Eq, Debug)]
pub enum Flaw {
    // A token that is not allowed here, or the end too early.
    Misplaced = 1,
    LongName = 2,
    // One variable, symbol or rule.
    TooMany = 3,
    // An argument count that differs from the symbol's, or exceeds 4, or a variable with arguments.
    Arguments = 4,
    LeftVariable = 5,
    AbsentVariable = 6,
    TooLong = 7,
    UnknownName = 8,
    DeclaredTwice = 9,
}

impl Flaw {
    // The number of its refusal.
    pub fn number(&self) -> u16
        ensures { result ≡ flaw_number self.now }
    {
        *self as u16
    }
}

// There is no room for one more.
impl From<Full> for Flaw {
    ghost from_gives = { λ _ flaw. flaw ≡ TooMany };

    fn from(_full: Full) -> Flaw {
        Flaw::TooMany
    }
}
