//! What a call of a tool that is no Rattle answers: a status and a number.
#![tactic(auto)]

mod status;
mod told;

pub use status::Status;
pub use told::Told;
