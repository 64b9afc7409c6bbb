//! The texts of paths, made from their steps.
#![tactic(auto)]

mod made;
mod text;

pub use made::push_path;
pub use text::{PathText, or_slash};
