//! The blocks that get copies: those in a cell, all that is below a top, and those along a path; and plans for cells of their own, as
//! they are put in place.
#![tactic(auto)]

mod along;
mod below;
mod kids;
mod path_draft;
mod paths;
mod plan;
mod read;
mod step;

pub use below::read_below;
pub use kids::block_kids;
pub use paths::unique_path;
pub use plan::{SplitPlan, plan_of, put_plan};
pub use read::read_cell;
pub use step::step_at;
