//! From names to places: where a path text leads in a design, and the places of instances, nets and ports by their identifiers.
#![tactic(auto)]

mod index;
mod laws;
mod look;
mod names;
mod order;
mod texts;

pub use laws::{paths_are_told, places_are_told};
pub use names::Names;
