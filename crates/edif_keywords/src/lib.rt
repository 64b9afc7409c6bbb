//! The keywords and their spellings.
#![tactic(auto)]

mod table;

pub use edif_spec::Keyword;
pub use table::keyword;
