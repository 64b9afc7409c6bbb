//! The electrical check of a design: what it finds, by one walk over the flattening.
#![tactic(auto)]

mod check;
mod firsts;
mod ports;
mod tally;

pub use check::erc_check;
pub use erc_spec::Finding;
pub use occ_walk::WalkError;
