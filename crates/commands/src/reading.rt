// Lines, read as commands.
ghost use Rattle.std.specs.Prelude.{◌≡◌, option_map};
ghost use Rattle.commands.specs.Words.{left, passed};
ghost use Rattle.commands.specs.Requests.{asked};
ghost use Rattle.commands.specs.Laws.{CommandExactly};
ghost use Rattle.commands.specs.Table.{then, done, behind, command_of};

use crate::command::Command;
use crate::verb::Verb;
use crate::words::Words;

// What a verb asks by the words behind it; others may follow.
fn read_behind<'a>(verb: Verb, words: &mut Words<'a>) -> Option<Command<'a>>
    ensures { then (passed (option_map asked result) (left words.new)) done ≡ behind verb (left words.old) }
{
    match verb {
        Verb::Measure => Some(Command::Measure(words.optional_term()?)),
        Verb::Compare => Some(Command::Compare(words.index()?)),
        Verb::Ceiling => Some(Command::Ceiling(words.index()?)),
        Verb::Pool => Some(Command::Pool(words.number()?, words.short_number()?)),
        Verb::Reserve => Some(Command::Reserve(words.number()?)),
        Verb::Settle => Some(Command::Settle(words.short_number()?)),
        Verb::Free => Some(Command::Free),
        Verb::Open => Some(Command::Open(
            words.opening()?,
            words.short_number()?,
            words.optional_term()?,
        )),
        Verb::Step => Some(Command::Step(words.short_number()?, words.index()?, words.index()?)),
        Verb::Sweep => Some(Command::Sweep(words.short_number()?, words.number()?)),
        Verb::Look => Some(Command::Look),
        Verb::Copy => Some(Command::Copy(words.index()?)),
        Verb::Term => Some(Command::Term),
        Verb::Help => Some(Command::Help),
    }
}

// The command that a line is, without its end; a line that is none is refused.
pub fn read_command(line: &[u8]) -> Option<Command<'_>>
    ensures value { option_map asked result ≡ command_of line.now }
    ensures means { CommandExactly line.now (option_map asked result) }
{
    let mut words = Words::of(line);
    let verb = words.verb()?;
    let command = read_behind(verb, &mut words)?;
    match words.next() {
        None => Some(command),
        Some(_) => None,
    }
}
