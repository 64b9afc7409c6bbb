//! The bits of a cell's ports, and the nets that stand for the bits of a bus.
#![tactic(auto)]

mod members;
mod runs;
mod widths;

pub use members::member_name;
pub use runs::{run_at, run_from, stem};
pub use widths::{bit_count, width};
