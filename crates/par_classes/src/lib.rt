//! Which nets and own bits of the cells at and below a top are connected, told by workers beside each other.
#![tactic(auto)]

mod ready;
mod rest;
mod told;
mod workers;

pub use workers::classes_by_workers;
