//! What a script holds between two of its lines, and its release at the end.
#![tactic(auto)]

mod held;

pub use held::{Block, Held, Stop, filled, held_after, settle};
