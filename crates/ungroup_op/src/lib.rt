//! Ungroup over cells: one instance is dissolved into the cell that holds it.
#![tactic(auto)]

mod notes;
mod op;
mod reads;

pub use op::ungroup;
