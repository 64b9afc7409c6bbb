//! What a script is told, line by line, as text.
#![tactic(auto)]

mod bytes;
mod lines;
mod walks;

pub use lines::{
    say_abandoned, say_begin, say_collected, say_committed, say_conflict, say_gone, say_log_full,
    say_no_pin, say_no_version, say_pin, say_released, say_reply,
};
pub use walks::say_walk;
