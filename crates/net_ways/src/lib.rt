//! From any net of a flattened design up to the first net of those that are connected with it, by what is kept of each cell and never of an
//! occurrence.
#![tactic(auto)]

mod climb;
mod joined;
mod ways;

pub use climb::{first_of, top_cell};
pub use joined::{net_inside, net_joined};
pub use ways::Ways;
