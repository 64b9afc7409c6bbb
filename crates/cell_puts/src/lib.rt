//! Changes put into a design, each cell in its place.
#![tactic(auto)]

mod in_place;

pub use in_place::put_in_place;
