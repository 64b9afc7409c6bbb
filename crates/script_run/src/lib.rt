//! One script, run as one caller of a shared database.
#![tactic(auto)]

mod along;
mod blocks;
mod lines;
mod places;
mod run;

pub use run::{Transcript, run_script};
