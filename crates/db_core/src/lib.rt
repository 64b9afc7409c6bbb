//! The database of one thread: versions of a design, pins, transactions, and the history of all calls.
#![tactic(auto)]

mod database;
mod errors;
mod kept;
mod laws;
mod next;
mod vecs;

pub use database::Core;
pub use edit_tx::{Left, Pin, Snapshot, Tx};
pub use errors::{CollectError, CommitError, PinAtError, PinError};
pub use laws::pin_stays;
