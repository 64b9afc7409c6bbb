//! The order in which the cells of a library are written.
#![tactic(auto)]

mod order;
mod ready_queue;

pub use order::cell_order;
