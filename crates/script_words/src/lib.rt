//! Reads a word of a script.
#![tactic(auto)]

mod atoms;
mod unread;

pub use atoms::{exponent, integer, name, number, quoted};
pub use unread::Unread;
