// Why a command is not performed.
ghost use Rattle.std.specs.Prelude.{◌≡◌, Some};
ghost use Rattle.sessions.specs.declared.fault.CommandFault.TheVariants as fault;
ghost use Rattle.sessions.specs.Texts.{fault_text};

use refusals::Refusal;
use std::fmt;

#[derive(Clone, Copy, PartialEq, Eq, Debug)]
pub enum CommandFault {
    // No pool was made yet.
    NoPool,
    // No grant of this number is out.
    NoGrant,
    // No job was opened yet.
    NoJob,
    // The system has no rule of this number.
    NoRule,
    // A pool has grants that are out, and no other takes its place.
    GrantsOut,
    // A layer below refuses.
    Refused(Refusal),
}

impl From<Refusal> for CommandFault {
    ghost from_gives = { λ refusal result. result ≡ fault.Refused refusal };

    fn from(refusal: Refusal) -> Self {
        Self::Refused(refusal)
    }
}

impl fmt::Display for CommandFault {
    ghost output = { λ fault. Some (fault_text fault) };

    fn fmt<W: fmt::Write>(&self, f: &mut fmt::Formatter<W>) -> fmt::Result {
        match self {
            CommandFault::NoPool => f.write_str("no pool"),
            CommandFault::NoGrant => f.write_str("no grant"),
            CommandFault::NoJob => f.write_str("no job"),
            CommandFault::NoRule => f.write_str("no rule"),
            CommandFault::GrantsOut => f.write_str("grants out"),
            CommandFault::Refused(refusal) => refusal.fmt(f),
        }
    }
}
