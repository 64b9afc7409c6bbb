//! A design of any size from a number, and edits of it.
#![tactic(auto)]

mod design;
mod edit;
mod parts;

pub use design::gen_design;
pub use edit::gen_op;
