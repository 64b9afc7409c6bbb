//! One version of a design: its libraries in shared tables, each with a directory of its cells' names.
#![tactic(auto)]

mod directory;
mod lower;
mod names;
mod shelf;
mod snapshot;
mod version;

pub use directory::Directory;
pub use names::NameList;
pub use shelf::Shelf;
pub use snapshot::Snapshot;
pub use version::{Heads, Version};
