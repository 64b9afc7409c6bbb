//! What a report shows of a design, as lines of text. It holds the definitions that contracts cite, and worked designs as laws.
#![tactic(auto)]

mod laws;

pub use laws::{board_is_shown, counter_is_shown, pair_is_shown};
