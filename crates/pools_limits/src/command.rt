// A line of input: a word, and the numbers that belong to it.
use pools::PoolCall;

pub enum Command {
    // A new pool of a size, with the first grant's number.
    Pool(u64, u32),
    Call(PoolCall),
    Free,
    // A grant of another pool, of an amount, settled in a pool of a size of which so much is taken.
    Foreign(u64, u64, u64),
}

fn number(word: Option<&str>) -> Option<u64> {
    word?.parse::<u64>().ok()
}

fn short_number(word: Option<&str>) -> Option<u32> {
    word?.parse::<u32>().ok()
}

impl Command {
    pub fn read(line: &str) -> Option<Command> {
        let mut words = line.split_whitespace();
        match words.next()? {
            "pool" => Some(Command::Pool(number(words.next())?, short_number(words.next())?)),
            "reserve" => Some(Command::Call(PoolCall::Reserve(number(words.next())?))),
            "settle" => Some(Command::Call(PoolCall::Settle(short_number(words.next())?))),
            "free" => Some(Command::Free),
            "foreign" => Some(Command::Foreign(
                number(words.next())?,
                number(words.next())?,
                number(words.next())?,
            )),
            _ => None,
        }
    }
}
