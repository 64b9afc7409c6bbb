//! The texts of operations, replies and objects, and their words.
#![tactic(auto)]

mod ops;
mod texts;
mod words;

pub use ops::push_op;
pub use texts::{object_text, push_object, push_reply, push_size, reply_text};
pub use words::{push_count, push_digits, push_number, push_word};
