//! The items of a flattening, as lines of text.
#![tactic(auto)]

mod items;
mod names;
mod paths;
mod whole;
mod words;

pub use items::{item_text, lent_text};
pub use whole::text_line;
