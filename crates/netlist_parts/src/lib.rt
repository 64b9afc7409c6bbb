//! Lists and values that versions share: a list in one piece, and one with few items in one piece and more in pages.
#![tactic(auto)]

mod parts;
mod parts_ref;
mod row;
mod rows;
mod shared;
mod shared_row;

pub use parts::Parts;
pub use parts_ref::PartsRef;
pub use row::Row;
pub use shared::Shared;
pub use shared_row::SharedRow;
