//! The questions about a version as one type: each answer is a status, a number and a text.
#![tactic(auto)]

mod calls;

pub use calls::{QuestionCall, answer_question};
