//! Bytes of which sixteen are looked at together: which of them is the first that a mask tells.
#![tactic(auto)]

mod lanes;

pub use lanes::{LANES, first_set};
