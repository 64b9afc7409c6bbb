//! Reads the operation that the words of a line say.
#![tactic(auto)]

mod front;
mod ops;
mod pieces;
mod values;
mod verbs;

pub use front::{finished, first, only};
pub use ops::read_op;
pub use verbs::{Bare, Inside, OpVerb, Verb, find_verb};
