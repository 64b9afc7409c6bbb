//! What a call of the program promises: what its words ask for, which status answers them and why, what is written then, what is told
//! of its files, and why one of them is refused. It holds definitions and a law, and no algorithm.
#![tactic(auto)]

mod command;
mod laws;
pub mod limits;
mod status;

pub use command::{Command, Wanted};
pub use laws::given_is_due;
pub use limits::{MOST_REPORT_BYTES, MOST_WORKERS};
pub use status::Status;
