//! Where a caller stands between two of its calls.

use db_core::{Pin, Tx};
use edit_spec::Op;
use netlist_schema::Row;

/// A transaction, with the retries left.
#[derive(Drop)]
pub struct Block {
    pub tx: Tx,
    pub retries: u32,
}

/// Where a caller stands between two of its calls.
#[derive(Drop)]
pub enum At {
    /// Between two lines, with nothing held.
    Free,
    /// Between two lines, with a pin.
    OnPin(Pin),
    /// Between two lines, where the pin that was wanted was refused.
    OffPin,
    /// Between two lines, in a transaction.
    InBlock(Block),
    /// A transaction has ended, and its pin is still to be released.
    Owes(Pin),
    /// A commit met a conflict: its pin is still to be released, and then the transaction is run again.
    OwesAgain(Block),
    /// That pin is released, and these operations are to be run again, with so many retries left.
    Again(Row<Op>, u32),
    /// The log was full for a call that wanted so many places, and no pin is held.
    Over(u32),
}

/// What is asked of a report's next event: whose call it is, and whether it is a release.
#[derive(Clone, Copy)]
pub struct Asked {
    pub caller: u32,
    pub release: bool,
}

/// A caller on its way through a script: where it stands, the place of its next line, and what was said to it.
#[derive(Drop)]
pub struct Seat {
    pub at: At,
    pub line: usize,
    pub said: Vec<u8>,
}
