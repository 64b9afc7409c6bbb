//! The contents and the notes after an instance is dissolved, over what was read: which nets become one net and what they join then,
//! and names that are made free in a set of names, where the case of letters is ignored.
#![tactic(auto)]

mod bits;
mod bytes;
mod contents;
mod ends;
mod groups;
mod heads;
mod insts;
mod limits;
mod links;
mod lists;
mod nets;
mod notes;
mod plan;
mod taken;

pub use groups::Grouped;
pub use plan::{Ungrouped, plan_ungroup};
pub use taken::Taken;
