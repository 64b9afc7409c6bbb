//! The accepted commits of a history, done again on cells.
#![tactic(auto)]

mod again;
mod laws;

pub use again::replay;
pub use laws::{replayed_is_head, replayed_runs};
