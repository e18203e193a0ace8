// What commands answer.
use algebras::Order;
use jobs::{Look, Sweep};

#[derive(Clone, Copy, PartialEq, Eq, Debug)]
pub enum Reply {
    Height(u64),
    Order(Order),
    Ceiling(Option<u64>),
    // A pool of this size was made.
    Pool(u64),
    // A grant's number and amount.
    Granted(u32, u64),
    Settled,
    // How much of a pool is free, and its size.
    Free(u64, u64),
    Opened,
    Stepped,
    Swept(Sweep),
    Looked(Look),
    // So many codes of the job's term stand in front of the memory that was lent.
    Copied(usize),
    // So many do, and they are to be shown by name.
    Term(usize),
    Help,
}
