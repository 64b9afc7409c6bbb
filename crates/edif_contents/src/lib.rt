//! From a tree to the contents of a cell: references, instances, nets and their ends, over the libraries that a file has defined.
#![tactic(auto)]

mod contents;
mod ends;
mod insts;
mod known;
mod limits;
mod nets;
mod references;

pub use contents::read_contents;
pub use known::{KnownCell, Libraries};
pub use references::{Reference, read_cell_ref, reference_at};
