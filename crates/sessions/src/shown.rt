// A reply with what it is shown by.
ghost use Rattle.std.specs.Prelude.{◌≡◌, Some, take};
ghost use Rattle.vocabulary.specs.Naming.{naming_of};
ghost use Rattle.sessions.specs.Texts.{reply_text, look_text};

use crate::reply::Reply;
use commands::HELP;
use jobs::Look;
use printing::NamedTerm;
use std::fmt;
use terms::Codes;
use vocabulary::Names;

// The names are the setting's, the memory the one that was lent.
#[derive(Clone, Copy)]
pub struct Shown<'a> {
    pub names: &'a Names,
    pub memory: &'a [u16],
    pub reply: Reply,
}

// What a look found.
#[derive(Clone, Copy)]
struct Found(Look);

impl fmt::Display for Found {
    ghost output = { λ found. Some (look_text found.0) };

    fn fmt<W: fmt::Write>(&self, f: &mut fmt::Formatter<W>) -> fmt::Result {
        let Look {
            first,
            size,
            count,
            left,
        } = self.0;
        match first {
            Some((place, rule)) => write!(f, "redex {place} {rule}")?,
            None => f.write_str("normal")?,
        }
        write!(f, " size {size} count {count} left {left}")
    }
}

impl Shown<'_> {
    // So many codes in front of the memory.
    fn front(&self, count: usize) -> &[u16]
        ensures { result.now ≡ take count self.now.memory.now }
    {
        &self.memory[..count.min(self.memory.len())]
    }
}

impl fmt::Display for Shown<'_> {
    ghost output = { λ s. Some (reply_text (naming_of s.names.now) s.memory.now s.reply) };

    fn fmt<W: fmt::Write>(&self, f: &mut fmt::Formatter<W>) -> fmt::Result {
        match self.reply {
            Reply::Height(height) => write!(f, "height {height}"),
            Reply::Order(order) => order.fmt(f),
            Reply::Ceiling(Some(most)) => write!(f, "{most}"),
            Reply::Ceiling(None) => f.write_str("none"),
            Reply::Pool(size) => write!(f, "pool {size}"),
            Reply::Granted(number, amount) => write!(f, "grant {number} {amount}"),
            Reply::Settled => f.write_str("settled"),
            Reply::Free(free, size) => write!(f, "free {free} of {size}"),
            Reply::Opened => f.write_str("opened"),
            Reply::Stepped => f.write_str("stepped"),
            Reply::Swept(sweep) => write!(f, "{} {}", sweep.end, sweep.steps),
            Reply::Looked(look) => Found(look).fmt(f),
            Reply::Copied(count) => write!(f, "codes{}", Codes(self.front(count))),
            Reply::Term(count) => NamedTerm {
                names: self.names,
                codes: self.front(count),
            }
            .fmt(f),
            Reply::Help => f.write_str(HELP),
        }
    }
}
