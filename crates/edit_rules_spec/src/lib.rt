//! What an operation on a design is: a rule that sees what it needs, and changes that agree wherever designs agree.
#![tactic(auto)]

mod copied;
mod laws;
mod reply;

pub use laws::{
    agree_is_same_value, below_test, objects_determine, one_overlay, path_test, valid_is_closed,
};
pub use reply::{CellName, EndName, Reply};
