//! A version that is edited: cells that are read and written, with the objects that were, and what the edits come to on a
//! later version.
#![tactic(auto)]

mod merge;
mod outside;
mod work;

pub use work::Work;
