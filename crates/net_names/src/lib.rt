//! The first nets that are connected with the nets of an occurrence, as its parent hands them down.
#![tactic(auto)]

mod names;
mod search;

pub use names::{Above, NetName, name_of, names_below, top_names};
pub use search::{Run, joined_net, joints_on};
