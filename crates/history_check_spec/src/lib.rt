//! How far a session has come between two calls of its caller, and that a printed report is that of one history at most. It holds
//! definitions and laws, and no algorithm.
#![tactic(auto)]

mod laws;

pub use laws::one_printed;
