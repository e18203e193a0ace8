// A session: what commands change.
use crate::opened::Opened;
use pools::Ledger;

mod calls;

// It can't be let go: `close` settles what is out.
pub struct Session {
    ledger: Option<Ledger>,
    job: Option<Opened>,
}
