//! Copies of cells for occurrences, as one change of a design: their places and names, and what is turned to them.
#![tactic(auto)]

mod change;
mod draft;
mod look;
mod namer;
mod numbers;
mod seek;
mod spot;
mod turn;

pub use change::split_change;
pub use draft::CopyDraft;
pub use namer::{Namer, Twin};
pub use spot::{Spot, Step};
