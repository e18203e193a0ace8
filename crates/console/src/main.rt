// Reads a rule text, a certificate and a start term from the current folder, then answers the commands of standard input,
// a line each. What is asked and answered stands in `commands` and `sessions`.
#![tactic(auto)]

use commands::read_command;
use folders::{Counts, read_folder};
use jobs::Inputs;
use piles::Pile;
use sessions::{Session, Setting, Shown};
use std::io;
use std::io::{BufRead, Input};
use terms::MOST_TERM;

fn answer(
    rt: &HostRuntime,
    setting: &Setting<Pile>,
    session: &mut Session,
    line: &[u8],
    memory: &mut [u16],
) -> io::Result<()> {
    let Some(command) = read_command(line) else {
        return println!(rt; "unknown command");
    };
    match session.perform(rt.alloc(), setting, command, memory)? {
        Ok(reply) => {
            let names = &setting.names;
            println!(rt;
                "{}",
                Shown {
                    names,
                    memory,
                    reply
                }
            )
        }
        Err(fault) => println!(rt; "{fault}"),
    }
}

// Up to the end of input; an empty line is passed over.
fn answer_lines(
    rt: &HostRuntime,
    setting: &Setting<Pile>,
    session: &mut Session,
) -> io::Result<()> {
    let mut memory = [0; MOST_TERM];
    for line in rt.reader().split(rt.alloc(), b'\n') {
        let line = line?;
        let line = line.as_slice();
        let line = line.strip_suffix(b"\r").unwrap_or(line);
        if !line.is_empty() {
            answer(rt, setting, session, line, &mut memory)?;
        }
    }
    Ok(())
}

// Whatever ends it, grants that are still out are settled.
fn converse(rt: &HostRuntime, inputs: Inputs) -> io::Result<()> {
    println!(rt; "{}", Counts(&inputs))?;
    let setting = Setting {
        names: inputs.names,
        system: inputs.system,
        pile: inputs.certificate.pile(),
        start: inputs.term,
    };
    let mut session = Session::new();
    let answered = answer_lines(rt, &setting, &mut session);
    let _pool = session.close();
    answered
}

fn main(rt: HostRuntime) -> io::Result<()> {
    match read_folder(&rt)? {
        Ok(inputs) => converse(&rt, inputs),
        Err(fault) => println!(rt; "{fault}"),
    }
}
