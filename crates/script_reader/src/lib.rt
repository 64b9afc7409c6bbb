//! Reads the text of a script.
#![tactic(auto)]

mod cut;
mod line;
mod script;
mod steps;

pub use script::{ScriptError, parse};
