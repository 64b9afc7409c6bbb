//! Numbers that pairs join, each with the least of those to which the pairs lead from it.
#![tactic(auto)]

mod joined;

pub use joined::{Pair, least_joined};
