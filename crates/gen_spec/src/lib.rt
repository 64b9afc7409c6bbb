//! The design and the run that a number makes: one caller edits the design again and again while another one holds its first version.
//! It holds the definitions of the design, of the run's calls and of what is told of it, and the laws that follow.
#![tactic(auto)]

mod laws;
mod limits;
mod summary;

pub use laws::{one_run, one_summary};
pub use limits::MOST_SIZE;
pub use summary::{Counts, Summary, Walked};
