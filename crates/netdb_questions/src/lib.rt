//! Questions by name about one version of a design: what is at a path, which net is at a pin, and lists of pins, instances and nets.
#![tactic(auto)]

mod answers;
mod finding;
mod items;
mod lists;
mod questions;

pub use ask_spec::Role;
pub use finding::{NetName, Refusal};
pub use flat_ask::AskError;
pub use lists::NextError;
pub use questions::Questions;
