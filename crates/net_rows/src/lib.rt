//! What is kept of a design to find the pins of its nets: of each cell the joints that lead to pins, and of the top its bits.
#![tactic(auto)]

mod leads;
mod lists;
mod rows;
mod tops;

pub use rows::Rows;
pub use tops::{OwnBit, TopRows};
