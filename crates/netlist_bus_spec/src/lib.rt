//! Buses: rows of nets that are named by one array and its numbers, and that join one bit each of the same ports.
#![tactic(auto)]

mod laws;

pub use laws::{greatest_run, members_are_names, members_differ, runs_are_rows, runs_are_told};
