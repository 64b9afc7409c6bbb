//! Words put behind one another in one piece.
#![tactic(auto)]

mod words;

pub use words::push_words;
