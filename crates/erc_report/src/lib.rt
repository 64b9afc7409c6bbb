//! What an electrical check of a design finds, line by line on its way to a sink.
#![tactic(auto)]

mod lines;
mod words;
mod write;

pub use write::write_findings;
