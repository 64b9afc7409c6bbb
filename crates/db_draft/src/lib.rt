//! A version of a design with changes over it.
#![tactic(auto)]

mod draft;
mod layer;
mod make;
mod place;

pub use draft::Draft;
pub use place::Tried;
