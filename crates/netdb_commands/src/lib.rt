//! The commands of the program: which one the words of a call are; its design file, a report and its scripts, read in the order of the
//! words, or the status that refuses one of them; and what a call writes, of a design, of a run and of a generated run.
#![tactic(auto)]

mod inputs;
mod outputs;
mod words;

pub use inputs::{read_design, read_report, read_scripts};
pub use outputs::{put_bytes, write_output, write_report, write_summary, write_with_uses};
pub use words::command_of;
