//! The report of a run of scripts, on its way to a sink.
#![tactic(auto)]

mod lines;
mod report;

pub use netdb_outside::WriteError;
pub use report::write_report;
