//! Walks over the same design that begin at any item: what they share, how many items stand at and below the occurrences of each cell,
//! and how items are passed over without a look at each.
#![tactic(auto)]

mod beside;
mod count;
mod counted_ground;
mod counts;
mod passing;
mod tables;

pub use counted_ground::CountedGround;
pub use counts::count_items;
pub use passing::{skip_many, start_at};
pub use tables::ItemCounts;
