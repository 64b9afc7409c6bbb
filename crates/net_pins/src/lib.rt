//! The pins of a net of a flattened design, one at a time in order, by an index that has a row for each cell and never one for an occurrence.
#![tactic(auto)]

mod kept;
mod levels;
mod listing;
mod pins;
mod spot;

pub use kept::{Kept, keep, list_as, pins_as};
pub use listing::Listing;
pub use pins::Pins;
