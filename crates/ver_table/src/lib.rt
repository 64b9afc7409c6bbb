//! A persistent table: a finite map from slots to shared items, kept in pages. A change leaves the table that it starts from.
#![tactic(auto)]

mod directory;
mod entries;
mod runs;
mod table;

pub use entries::Entry;
pub use table::Table;
