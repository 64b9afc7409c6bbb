//! The report of a run of scripts, and behind it the uses of the last version, on their way to a sink.
#![tactic(auto)]

mod write;

pub use write::write_run_uses;
