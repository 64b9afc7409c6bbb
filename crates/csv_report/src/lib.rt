//! The pins of a flattening, as rows of comma-separated text.
#![tactic(auto)]

mod pin;
mod pins;
mod places;
mod rows;
mod written;

pub use pins::text_row;
pub use places::{net_name, path_bytes, port_name};
pub use rows::{header, pin_row};
