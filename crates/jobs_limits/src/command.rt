// A line of input.
use crate::setting::{Change, Codes};
use bounded::ArrayVec;
use parts::LinearSymbol;
use pools::PoolCall;
use std::str::SplitWhitespace;
use worked_parts::WorkedPart;

#[derive(Drop)]
pub enum Command {
    Set(Change),
    // A new pool of a size, with the first grant's number.
    Pool(u64, u32),
    PoolCall(PoolCall),
    // A grant of another pool.
    Foreign(u64),
    Free,
    // In full or short, with the grant of a number.
    Open(bool, u32),
    // Anything else: calls on the job.
    Calls,
}

fn byte(word: Option<&str>) -> Option<u8> {
    word?.parse::<u8>().ok()
}

fn short_number(word: Option<&str>) -> Option<u32> {
    word?.parse::<u32>().ok()
}

fn long_number(word: Option<&str>) -> Option<u64> {
    word?.parse::<u64>().ok()
}

// Codes up to the end, or to an arrow.
fn codes(words: &mut SplitWhitespace) -> Option<Codes> {
    let mut codes = ArrayVec::new(0);
    while let Some(word) = words.next() {
        if word == "->" {
            break;
        }
        codes.push(word.parse::<u16>().ok()?).ok()?;
    }
    Some(codes)
}

fn arities(words: &mut SplitWhitespace) -> Option<ArrayVec<u8, 40>> {
    let mut arities = ArrayVec::new(0);
    while let Some(word) = words.next() {
        arities.push(word.parse::<u8>().ok()?).ok()?;
    }
    Some(arities)
}

// A constant and four factors.
fn symbol(constant: Option<&str>, words: &mut SplitWhitespace) -> Option<LinearSymbol> {
    Some(LinearSymbol {
        constant: byte(constant)?,
        factors: [
            byte(words.next())?,
            byte(words.next())?,
            byte(words.next())?,
            byte(words.next())?,
        ],
    })
}

fn symbols(words: &mut SplitWhitespace) -> Option<[LinearSymbol; 32]> {
    let none = LinearSymbol {
        constant: 0,
        factors: [0; 4],
    };
    let mut symbols = [none; 32];
    for slot in symbols.iter_mut() {
        let constant = words.next();
        if constant.is_none() {
            break;
        }
        *slot = symbol(constant, words)?;
    }
    Some(symbols)
}

fn worked_part(word: Option<&str>) -> Option<WorkedPart> {
    match word? {
        "first" => Some(WorkedPart::First),
        "second" => Some(WorkedPart::Second),
        "powers" => Some(WorkedPart::Powers),
        _ => None,
    }
}

fn change(kind: &str, words: &mut SplitWhitespace) -> Option<Change> {
    match kind {
        "arities" => Some(Change::Arities(arities(words)?)),
        "rule" => Some(Change::Rule(codes(words)?, codes(words)?)),
        "linear" => Some(Change::Linear(symbols(words)?)),
        "part" => Some(Change::Worked(worked_part(words.next())?)),
        "term" => Some(Change::Term(codes(words)?)),
        _ => None,
    }
}

fn other(kind: &str, words: &mut SplitWhitespace) -> Option<Command> {
    match kind {
        "pool" => Some(Command::Pool(long_number(words.next())?, short_number(words.next())?)),
        "reserve" => Some(Command::PoolCall(PoolCall::Reserve(long_number(words.next())?))),
        "settle" => Some(Command::PoolCall(PoolCall::Settle(short_number(words.next())?))),
        "foreign" => Some(Command::Foreign(long_number(words.next())?)),
        "free" => Some(Command::Free),
        "full" => Some(Command::Open(true, short_number(words.next())?)),
        "short" => Some(Command::Open(false, short_number(words.next())?)),
        _ => None,
    }
}

impl Command {
    pub fn read(line: &str) -> Command {
        let mut words = line.split_whitespace();
        let Some(kind) = words.next() else {
            return Command::Calls;
        };
        if let Some(change) = change(kind, &mut words) {
            return Command::Set(change);
        }
        other(kind, &mut words).unwrap_or(Command::Calls)
    }
}
