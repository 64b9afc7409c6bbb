//! The plain flattening of a design.
#![tactic(auto)]

mod ends;
mod firsts;
mod items;
mod labels;
mod meets;
mod pins;
mod plain;
mod tree_nets;
mod walk;

pub use flat_spec::{Item, NetAt, Path};
pub use plain::{PlainError, plain_flat};
