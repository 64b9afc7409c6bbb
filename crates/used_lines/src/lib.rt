//! The uses of a design, as lines on their way to a sink.
#![tactic(auto)]

mod lines;
mod names;
mod write;

pub use netdb_outside::WriteError;
pub use write::write_uses;
