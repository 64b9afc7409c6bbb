//! The single operations, over cells that are read and edited one by one: those on ends and on instances, with what they plan over
//! what they have read, and one call for all.
#![tactic(auto)]

mod end_plans;
mod ends;
mod inst_plans;
mod insts;
mod ops;

pub use ops::{eco_op, is_single};
