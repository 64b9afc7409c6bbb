//! A design that is shown, in memory of its own.
#![tactic(auto)]

mod copies;

pub use copies::{copy_of, top_of};
