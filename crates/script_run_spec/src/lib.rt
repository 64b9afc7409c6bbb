//! What running a script as one caller of a shared design comes to, line by line; and scripts that are run beside each other on one
//! design, with the report of them all. It holds definitions and laws, and no algorithm.
#![tactic(auto)]

mod joint_laws;
mod laws;

pub use joint_laws::ended_is_printed;
pub use laws::{comes_further, comes_to_begin, comes_to_break, comes_to_end, comes_to_full};
