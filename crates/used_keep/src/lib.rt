//! A design with nothing but its top and the cells below it.
#![tactic(auto)]

mod cells;
mod error;
mod keep;
mod places;

pub use error::KeepError;
pub use keep::keep_used;
