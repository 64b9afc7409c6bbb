//! The uses of the last version of a history, on their way to a sink.
#![tactic(auto)]

mod write;

pub use netdb_outside::WriteError;
pub use write::write_head_uses;
