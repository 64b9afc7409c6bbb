//! Whether a printed report is true: a replay of its events on a database of one thread, script by script, and a comparison of bytes.
#![tactic(auto)]

mod check;
mod ends;
mod replay;

pub use check::{CheckError, Verdict, check_report};
