//! The order of the cells of a library in which children stand first.
#![tactic(auto)]

mod laws;

pub use laws::order_is_whole;
