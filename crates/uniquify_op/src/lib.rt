//! Uniquify over cells: each occurrence of a block gets a cell of its own; and unique-path, by which those along a path do.
#![tactic(auto)]

mod blocks;
mod frame;
mod met;
mod op;
mod visits;
mod walk;

pub use op::uniquify;
pub use uniquify_blocks::unique_path;
