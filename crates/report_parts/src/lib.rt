//! Parts of a printed report, found at the front of its text: the head of an event, and what stands behind the events.
#![tactic(auto)]

mod heads;
mod rests;
mod same_sink;

pub use heads::{Next, after, next_caller};
pub use rests::is_rest;
pub use same_sink::SameSink;
