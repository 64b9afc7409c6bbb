//! The lazy walk over the occurrences of a design: one item at a time, with the names of nets handed down a stack.
#![tactic(auto)]

mod frames;
mod starts;
mod steps;
mod walk;

pub use starts::start;
pub use steps::{advance, current, next_item, skip, text};
pub use walk::{Walk, WalkError};
