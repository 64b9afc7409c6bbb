//! One value behind a turn, for callers in threads of their own.
//!
//! A caller has a seat. It draws a ticket, waits until the ticket is served, has the value until it leaves, and adds at most
//! one entry to the value's list. So the entries have one order, and each seat knows a prefix of them.
#![tactic(auto)]

mod board;
mod limits;
mod logged;
mod plays;
mod turn;

pub use limits::MOST_SEATS;
pub use logged::Logged;
pub use turn::{Turn, TurnSeat};
