//! From the tree of a file to the design that it means, or to a fault that stands in it.
#![tactic(auto)]

mod cells;
mod file;
mod headings;
mod levels;
mod libraries;
mod notes;
mod top;

pub use edif_parts::EdifError;
pub use edif_spec::{ClashKind, Kind, MeaningFault};
pub use file::read_design;
