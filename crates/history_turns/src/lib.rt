//! A caller on its way through a script, on a database of one thread: where it stands between two of its calls, and what its next call comes to.
#![tactic(auto)]

mod blocks;
mod lines;
mod places;
mod quiet;
mod seats;
mod within;

pub use places::take_turn;
pub use quiet::pass_quiet;
pub use seats::{Asked, At, Block, Seat};
