//! A desk: a database of one thread with a seat for each of its callers, for tools in other languages.
#![tactic(auto)]

mod desk;
mod held;
mod limits;
mod line;
mod seats;

pub use desk::Desk;
pub use held::{Held, WrongUse};
pub use limits::{MOST_LINE_BYTES, SEATS};
pub use line::{LineError, op_of};
