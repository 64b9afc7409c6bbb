//! Which own bits of a cell are connected in its tree, told for each cell at or below a top once, children first.
#![tactic(auto)]

mod bits;
mod classes;
mod joints;
mod known;
mod links;
mod tables;

pub use classes::Classes;
pub use joints::Joint;
pub use tables::CellNets;
