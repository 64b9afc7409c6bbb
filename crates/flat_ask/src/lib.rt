//! Questions about a flattened design, answered without walking it: by an index that is made once, a row for each cell and never one for
//! an occurrence.
#![tactic(auto)]

mod ask;

pub use ask::{Ask, AskError};
