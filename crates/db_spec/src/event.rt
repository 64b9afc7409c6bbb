//! Calls, answers and events, which are moved and never copied. The operations of a call can be copied.
use edit_spec::{Op, Reply};
use netlist_schema::{Object, Row};

/// A call that one caller makes on a shared design. Pins and versions are numbered from 0.
#[derive(Debug, PartialEq, Eq, Drop)]
pub enum Call {
    /// Pins the last version.
    Pin,
    /// Pins the version of this number.
    PinAt(u64),
    /// Ends the pin of this number.
    Release(u64),
    /// Drops the versions that no live pin holds, all but the last one.
    Collect,
    /// Runs operations that were tried on the pin's version, in order, on the last version. What they leave is the next
    /// version.
    Commit { pin: u64, ops: Row<Op> },
}

/// The answer to a call.
#[derive(Debug, PartialEq, Eq, Drop)]
pub enum Answer {
    /// The number of the new pin, and the version that it holds.
    Pinned { pin: u64, version: u64 },
    /// There is no such version yet. The last one has this number.
    NoVersion(u64),
    /// The version is kept no longer. The least one that is kept has this number.
    Gone(u64),
    /// The pin is no longer live.
    Released,
    /// So many versions were dropped.
    Collected(u32),
    /// The number of the new version, and the reply to each operation, in order.
    Committed { version: u64, replies: Row<Reply> },
    /// A commit after the pin's version wrote what the operations read: the least such object, and the last commit that
    /// wrote it, by the version that it made.
    Conflict { object: Object, version: u64 },
}

/// An entry of the history: a call of a caller, and its answer. Callers are numbered from 0.
#[derive(Debug, PartialEq, Eq)]
pub struct Event {
    pub caller: u32,
    pub call: Call,
    pub answer: Answer,
}

impl Drop for Event {
    fn drop(self) {
        let Event {
            caller: _,
            call: _,
            answer: _,
        } = self;
    }
}
