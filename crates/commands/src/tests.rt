// Lines at a console, and what they ask.
use crate::command::{Command, Opening};
use crate::reading::read_command;

// A line of each form, and lines that are no command.
const LINES: [(&[u8], Option<Command<'static>>); 40] = [
    (b"measure", Some(Command::Measure(None))),
    (b"measure s(z)", Some(Command::Measure(Some(b"s(z)")))),
    (b"compare 1", Some(Command::Compare(1))),
    (b"ceiling 1024", Some(Command::Ceiling(1024))),
    (b"pool 9 4294967295", Some(Command::Pool(9, u32::MAX))),
    (b"reserve 007", Some(Command::Reserve(7))),
    (b"settle 4294967295", Some(Command::Settle(u32::MAX))),
    (b"free", Some(Command::Free)),
    (b"open full 1", Some(Command::Open(Opening::Full, 1, None))),
    (
        b"open full 1 full",
        Some(Command::Open(Opening::Full, 1, Some(b"full"))),
    ),
    (
        b"open short 2",
        Some(Command::Open(Opening::Short, 2, None)),
    ),
    (
        b"open short 2 2",
        Some(Command::Open(Opening::Short, 2, Some(b"2"))),
    ),
    (b"step 1 2 3", Some(Command::Step(1, 2, 3))),
    (
        b"sweep 1 18446744073709551615",
        Some(Command::Sweep(1, u64::MAX)),
    ),
    (b"look", Some(Command::Look)),
    (b"copy 12", Some(Command::Copy(12))),
    (b"term", Some(Command::Term)),
    (b"help", Some(Command::Help)),
    (b"", None),
    (b" ", None),
    (b" look", None),
    (b"look ", None),
    (b"measure ", None),
    (b"measure  z", None),
    (b"measure z z", None),
    (b"Look", None),
    (b"looks", None),
    (b"look 1", None),
    (b"pool 1", None),
    (b"pool 1  1", None),
    (b"pool 1 1 1", None),
    (b"pool 18446744073709551616 1", None),
    (b"pool 1 4294967296", None),
    (b"settle 4294967296", None),
    (b"reserve +1", None),
    (b"reserve -1", None),
    (b"open 1", None),
    (b"open full", None),
    (b"open half 1", None),
    (b"copy 18446744073709551616", None),
];

#[test]
fn reads_lines(rt: HostRuntime) {
    for (line, command) in &LINES {
        assert!(rt; read_command(line) == *command);
    }
}
