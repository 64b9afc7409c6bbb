//! The last commit of each object, and the check of what was read against it.
#![tactic(auto)]

mod stamps;

pub use stamps::{Later, Stamps};
