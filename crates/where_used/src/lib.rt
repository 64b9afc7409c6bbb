//! Where each cell of a design is used: an index of the uses, and cells that keep one with every edit.
#![tactic(auto)]

mod build;
mod indexed;
mod moves;
mod rows;
mod used;
mod watched;

pub use used::Used;
pub use used_spec::UsedAt;
pub use watched::Watched;
