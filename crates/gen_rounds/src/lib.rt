//! The rounds of a generated run, and what is counted of it.
#![tactic(auto)]

mod counting;
mod rounds;
mod run;

pub use counting::{commits_in, dropped_in, walk_pinned};
pub use run::{Run, end, go_through};
