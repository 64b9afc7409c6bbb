//! The properties of the occurrences of a design.
#![tactic(auto)]

mod properties;

pub use properties::{effective, merged};
