//! The callers of a database.
use db_share::{Pass, Tx};

/// A caller: its pass, and its transaction, where it has a pin. A step that is not answered as it should be ends the
/// transaction, so that the calls behind it are missing in the log.
#[derive(Drop)]
pub struct Caller {
    pub pass: Pass,
    pub tx: Option<Tx>,
}

/// The two callers, and a third that makes no call: it takes the thread that is there, so that the two have threads of their own.
#[derive(Drop)]
pub struct Trio {
    pub first: Caller,
    pub second: Caller,
    pub idle: Caller,
}
