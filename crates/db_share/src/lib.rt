//! The database that callers in threads of their own share: one core behind a turn.
//!
//! A caller has a pass. Each call of it waits for its turn, and adds one event to the log or none. Where it adds one, the pass has seen
//! the whole log up to that event; where it is refused, a front of the log that begins with what it had seen.
//! Transactions and walks read the version of their pin, outside any turn.
#![tactic(auto)]

mod events;
mod laws;
mod share;

pub use db_core::{CollectError, CommitError, Core, Pin, PinAtError, PinError, Tx};
pub use laws::{calls_keep_pins, passes_go_on, pins_stay, unreleased_pins_are_live};
pub use share::{Db, Pass, SharedCore};
