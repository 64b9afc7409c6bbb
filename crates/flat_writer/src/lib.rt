//! The flattening of a design and its pin table, item by item on their way to a sink.
#![tactic(auto)]

mod error;
mod flat;
mod shown;
mod table;

pub use error::{FlatError, outcome};
pub use flat::write_flat;
pub use table::write_pin_table;
